//! The reason line: why a call didn't end as Done.
ghost use Rattle.std.specs.Prelude.{◌≡◌, ◌++◌, IfOk, OnOk, OnErr, string_bytes};
ghost use Rattle.call_report.specs.Reason.{blame_words, cause_words, failing_words, fault_words, image_words, made_words, number_word, probes_words, reason_text, role_word, script_words, text_words, trace_words, type_words, why_name};

use crate::report::{Blame, Made, Report};
use call_status::{Role, Status};
use drill_text::DrillFault;
use image_text::ImageFault;
use probe_text::ProbesFault;
use stab_base::NoMemory;
use stab_text::TextFault;
use stab_types::TypeFault;
use stab_words::WordFault;
use std::alloc::Global;
use trace_text::TraceFault;
use trace_verify::{Verdict, Why};

/// Appends the line that says why a call didn't end as Done: the status and its cause, which is a file, a fault of the words or
/// of a text, a function, or the bad event of a trace. For Done nothing is appended.
pub fn reason(alloc: Global, report: &Report, out: &mut Vec<u8>) -> Result<(), NoMemory>
    ensures ok { OnOk result (out.new.items ≡ out.old.items ++ reason_text report.now.status (cause_words report.now)) }
    ensures err { OnErr result (out.new.items ≡ out.old.items) }
{
    if report.status == Status::Done {
        return Ok(());
    }
    let status = report.status.name();
    let cause = cause_words(alloc, report)?;
    let line = format!(in alloc; "stab: {status}{cause}\n")?;
    out.extend_from_slice(line.as_bytes())?;
    Ok(())
}

// Why a call ended as it did.
fn cause_words(alloc: Global, report: &Report) -> Result<String, NoMemory>
    ensures { IfOk result (λ words. string_bytes words ≡ cause_words report.now) }
{
    let blame = blame_words(alloc, report.blame)?;
    let made = made_words(alloc, &report.made)?;
    Ok(format!(in alloc; "{blame}{made}")?)
}

// The words for what is blamed.
fn blame_words(alloc: Global, blame: Option<Blame>) -> Result<String, NoMemory>
    ensures { IfOk result (λ words. string_bytes words ≡ blame_words blame) }
{
    match blame {
        None => Ok(String::new(alloc)),
        Some(Blame::Words(fault)) => fault_words(alloc, fault),
        Some(Blame::File(role)) => role_word(alloc, role),
        Some(Blame::Text(fault)) => text_words(alloc, fault),
        Some(Blame::Probes(fault)) => probes_words(alloc, fault),
        Some(Blame::Trace(fault)) => trace_words(alloc, fault),
        Some(Blame::Script(fault)) => script_words(alloc, fault),
        Some(Blame::Types(fault)) => type_words(alloc, fault),
        Some(Blame::Image(fault)) => image_words(alloc, fault),
    }
}

// The words for what was made. Only a verdict has some.
fn made_words(alloc: Global, made: &Option<Made>) -> Result<String, NoMemory>
    ensures { IfOk result (λ words. string_bytes words ≡ made_words made.now) }
{
    match made {
        None => Ok(String::new(alloc)),
        Some(Made::Book(_)) => Ok(String::new(alloc)),
        Some(Made::Verdict(verdict)) => failing_words(alloc, *verdict),
        Some(Made::Resumed(_)) => Ok(String::new(alloc)),
    }
}

// The word for the file, after a space.
fn role_word(alloc: Global, role: Role) -> Result<String, NoMemory>
    ensures { IfOk result (λ word. string_bytes word ≡ role_word role) }
{
    let name = role.name();
    Ok(format!(in alloc; " {name}")?)
}

// The name of the fault and the number of the word that it is about, each after a space.
fn fault_words(alloc: Global, fault: WordFault) -> Result<String, NoMemory>
    ensures { IfOk result (λ words. string_bytes words ≡ fault_words fault) }
{
    let name = fault.name();
    let number = number_word(alloc, fault.word())?;
    Ok(format!(in alloc; " {name}{number}")?)
}

// The name of the fault, its place, and the length of the name that it is about, each after a space.
fn text_words(alloc: Global, fault: TextFault) -> Result<String, NoMemory>
    ensures { IfOk result (λ words. string_bytes words ≡ text_words fault) }
{
    let name = fault.name();
    let place = place_word(alloc, fault.place())?;
    let length = place_word(alloc, fault.length())?;
    Ok(format!(in alloc; " {name}{place}{length}")?)
}

fn place_word(alloc: Global, number: Option<u32>) -> Result<String, NoMemory>
    ensures { IfOk result (λ word. string_bytes word ≡ number_word number) }
{
    number_word(alloc, number.map(|number| number as usize))
}

fn number_word(alloc: Global, number: Option<usize>) -> Result<String, NoMemory>
    ensures { IfOk result (λ word. string_bytes word ≡ number_word number) }
{
    let Some(number) = number else {
        return Ok(String::new(alloc));
    };
    Ok(format!(in alloc; " {number}")?)
}

// The name of the fault and its place, each after a space.
fn probes_words(alloc: Global, fault: ProbesFault) -> Result<String, NoMemory>
    ensures { IfOk result (λ words. string_bytes words ≡ probes_words fault) }
{
    match fault {
        ProbesFault::Line(at) => Ok(format!(in alloc; " Line {at}")?),
        ProbesFault::NoMemory => Ok(String::from_str(alloc, " NoMemory")?),
    }
}

// The name of the fault and its place, each after a space.
fn trace_words(alloc: Global, fault: TraceFault) -> Result<String, NoMemory>
    ensures { IfOk result (λ words. string_bytes words ≡ trace_words fault) }
{
    match fault {
        TraceFault::BadLine(at) => Ok(format!(in alloc; " BadLine {at}")?),
        TraceFault::BadNumber(at) => Ok(format!(in alloc; " BadNumber {at}")?),
        TraceFault::OutOfOrder(at) => Ok(format!(in alloc; " OutOfOrder {at}")?),
        TraceFault::NoEnd => Ok(String::from_str(alloc, " NoEnd")?),
        TraceFault::NoMemory => Ok(String::from_str(alloc, " NoMemory")?),
    }
}

// The name of the fault and its place, each after a space.
fn script_words(alloc: Global, fault: DrillFault) -> Result<String, NoMemory>
    ensures { IfOk result (λ words. string_bytes words ≡ script_words fault) }
{
    match fault {
        DrillFault::BadLine(at) => Ok(format!(in alloc; " BadLine {at}")?),
        DrillFault::NoSuchLease(at) => Ok(format!(in alloc; " NoSuchLease {at}")?),
        DrillFault::HeldTwice(at) => Ok(format!(in alloc; " HeldTwice {at}")?),
        DrillFault::NoMemory => Ok(String::from_str(alloc, " NoMemory")?),
    }
}

// The name of the fault and its place, each after a space.
fn image_words(alloc: Global, fault: ImageFault) -> Result<String, NoMemory>
    ensures { IfOk result (λ words. string_bytes words ≡ image_words fault) }
{
    match fault {
        ImageFault::BadLine(at) => Ok(format!(in alloc; " BadLine {at}")?),
        ImageFault::BadNumber(at) => Ok(format!(in alloc; " BadNumber {at}")?),
        ImageFault::BadProgram => Ok(String::from_str(alloc, " BadProgram")?),
        ImageFault::BadState(at) => Ok(format!(in alloc; " BadState {at}")?),
        ImageFault::NoEnd => Ok(String::from_str(alloc, " NoEnd")?),
        ImageFault::NoMemory => Ok(String::from_str(alloc, " NoMemory")?),
    }
}

// The number of the function, after a space.
fn type_words(alloc: Global, fault: TypeFault) -> Result<String, NoMemory>
    ensures { IfOk result (λ words. string_bytes words ≡ type_words fault) }
{
    match fault {
        TypeFault::Untyped(f) => number_word(alloc, Some(f.0 as usize)),
        TypeFault::NoMemory => Ok(String::from_str(alloc, " NoMemory")?),
    }
}

/// The number of the event that fails and what is wrong with it, each after a space.
pub fn failing_words(alloc: Global, verdict: Verdict) -> Result<String, NoMemory>
    ensures { IfOk result (λ words. string_bytes words ≡ failing_words verdict) }
{
    match verdict {
        Verdict::Yes => Ok(String::new(alloc)),
        Verdict::No(q, why) => {
            let number = q.0;
            let name = why_name(why);
            Ok(format!(in alloc; " {number} {name}")?)
        }
    }
}

fn why_name(why: Why) -> &'static str
    ensures { result.now ≡ why_name why }
{
    match why {
        Why::NoStep => "NoStep",
        Why::WrongProbe => "WrongProbe",
        Why::WrongAttempt => "WrongAttempt",
        Why::Revocable => "Revocable",
        Why::NotRevocable => "NotRevocable",
        Why::WrongRelease => "WrongRelease",
        Why::WrongSign => "WrongSign",
    }
}
