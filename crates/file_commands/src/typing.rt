//! Checks the types of the program in a file.
ghost use Rattle.std.specs.Prelude.{◌≡◌, IfErr, IfOk, Some, string_bytes};
ghost use Rattle.stab_types.specs.declared.typed.TypeFault.TheVariants.{Untyped as UntypedFault};
ghost use Rattle.call_status.specs.declared.status.Status.TheVariants.{Untyped as UntypedStatus};
ghost use Rattle.call_report.specs.declared.report.Blame.TheVariants as blame;
ghost use Rattle.call_report.specs.Report.{Blames};
ghost use Rattle.stab_types.specs.Checked.{IsFaultOf};
ghost use Rattle.stab_types.specs.Typed.{IsTyped};
ghost use Rattle.file_commands.specs.Typing.{typed_line, TypesEnds, TypesSays};
ghost use Rattle.call_report.specs.Call.{call_of};
ghost use Rattle.call_report.specs.Report.{outcome_of};

use call_report::{Blame, Report, read_program_file};
use call_status::Status;
use stab_base::{FnId, NoMemory};
use stab_code::Program;
use stab_files::{Files, Sink, SinkFail};
use stab_types::{TypeFault, Typed, check_types};
use stab_words::Name;
use std::alloc::Global;
use std::sync::Arc;

/// Reads the program in the file, and writes how many functions it has, if it is typed. If not, the report names its first
/// function that isn't typed.
pub fn types_file<F: Files, K: Sink>(
    alloc: Global,
    file: &Name,
    files: &mut F,
    sink: &mut K,
) -> Report
    ensures says { TypesSays (call_of F.held F.faults files.old files.new
        (outcome_of K.told K.faults sink.old sink.new result)) file.now }
    ensures kept { F.held files.new ≡ F.held files.old }
{
    match read_program_file(alloc, files, file.as_str()) {
        Ok(program) => type_program(alloc, program, sink),
        Err(report) => report,
    }
}

// Writes how many functions the program has, if it is typed.
fn type_program<K: Sink>(alloc: Global, program: Program, sink: &mut K) -> Report
    ensures { TypesEnds result.status program (outcome_of K.told K.faults sink.old sink.new result) }
{
    match typed_program(alloc, program) {
        Ok(typed) => tell_typed(alloc, &typed, sink),
        Err(TypeFault::Untyped(first)) => untyped(first),
        Err(TypeFault::NoMemory) => Report::bare(Status::NoMemory),
    }
}

// The report of the first function that isn't typed.
fn untyped(first: FnId) -> Report
    ensures status { result.status ≡ UntypedStatus }
    ensures blames { Blames result (Some (blame.Types (UntypedFault first))) }
{
    Report::blaming(Status::Untyped, Blame::Types(TypeFault::Untyped(first)))
}

fn typed_program(alloc: Global, program: Program) -> Result<Typed, TypeFault>
    ensures same { IfOk result (λ typed. typed ≡ program) }
    ensures typed { IfOk result (λ typed. IsTyped typed) }
    ensures refused { IfErr result (IsFaultOf program) }
{
    let Ok(program) = Arc::new(alloc, program) else {
        return Err(TypeFault::NoMemory);
    };
    check_types(alloc, &program)
}

// Writes how many functions a typed program has.
fn tell_typed<K: Sink>(alloc: Global, typed: &Typed, sink: &mut K) -> Report
    requires { IsTyped typed.now }
    ensures { TypesEnds result.status typed.now (outcome_of K.told K.faults sink.old sink.new result) }
{
    let Ok(line) = typed_line(alloc, typed) else {
        return Report::bare(Status::NoMemory);
    };
    match sink.put(line.as_bytes()) {
        Ok(()) => Report::bare(Status::Done),
        Err(SinkFail::Failed) => Report::bare(Status::SinkFault),
    }
}

fn typed_line(alloc: Global, typed: &Typed) -> Result<String, NoMemory>
    ensures { IfOk result (λ line. string_bytes line ≡ typed_line typed.now) }
{
    let functions = typed.program().functions();
    Ok(format!(in alloc; "typed functions {functions}\n")?)
}
