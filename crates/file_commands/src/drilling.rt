//! Plays drills.
ghost use Rattle.std.specs.Prelude.{◌≡◌, ◌≤◌, ◌++◌, ℕ, List, length, IfOk, IfErr};
ghost use Rattle.stab_code.specs.JobParts.{job_of};
ghost use Rattle.stab_code.specs.Limits.{max_script};
ghost use Rattle.stab_words.specs.Command.{most_fuel, most_quantum};
ghost use Rattle.stab_words.specs.Within.{IsUpTo};
ghost use Rattle.commit_book.specs.Book.{IsShown};
ghost use Rattle.book_text.specs.Written.{IsShownText};
ghost use Rattle.drill_text.specs.Script.{script_of};
ghost use Rattle.schedule_drill.specs.Drilled.{IsDrilled, IsRefused};
ghost use Rattle.call_report.specs.Call.{ScriptSays, call_of};
ghost use Rattle.call_report.specs.Report.{Blames, outcome_of};
ghost use Rattle.file_commands.specs.Drilling.{DrillEnds, DrillSays, OrdersSay, WriteEnds, unplayed_blame, unplayed_status};

use book_text::shown_text;
use call_report::{Blame, Given, Made, Report, load, read_probes_file, read_program_file};
use call_status::{Role, Status};
use commit_book::Book;
use drill_text::DrillFault;
use schedule_drill::{DrillEnd, drill};
use sink_lines::put_lines;
use stab_base::NoMemory;
use stab_code::Program;
use stab_files::{Files, Sink, SinkFail};
use stab_words::DrillArgs;
use std::alloc::Global;

/// Plays the drill script in its file on the program in the file and the probe script.
pub fn drill_file<F: Files, K: Sink>(
    alloc: Global,
    args: &DrillArgs,
    files: &mut F,
    sink: &mut K,
) -> Report
    requires fuel { IsUpTo most_fuel args.now.fuel }
    requires quantum { IsUpTo most_quantum args.now.quantum }
    ensures says { DrillSays (call_of F.held F.faults files.old files.new
        (outcome_of K.told K.faults sink.old sink.new result)) args.now }
    ensures kept { F.held files.new ≡ F.held files.old }
{
    match read_program_file(alloc, files, args.file.as_str()) {
        Ok(program) => drill_program(alloc, args, program, files, sink),
        Err(report) => report,
    }
}

// Plays the drill script in its file on the program and the probe script.
fn drill_program<F: Files, K: Sink>(
    alloc: Global,
    args: &DrillArgs,
    program: Program,
    files: &mut F,
    sink: &mut K,
) -> Report
    requires fuel { IsUpTo most_fuel args.now.fuel }
    requires quantum { IsUpTo most_quantum args.now.quantum }
    ensures says { let c = call_of F.held F.faults files.old files.new (outcome_of K.told K.faults sink.old sink.new result) in
        ScriptSays c args.now.probes (λ script. OrdersSay c args.now program script) }
    ensures kept { F.held files.new ≡ F.held files.old }
{
    let Some(file) = &args.probes else {
        let script = Vec::new(alloc);
        return drill_given(alloc, args, Given { program, script }, files, sink);
    };
    match read_probes_file(alloc, files, file.as_str()) {
        Ok(script) => drill_given(alloc, args, Given { program, script }, files, sink),
        Err(report) => report,
    }
}

// Plays the drill script in its file on what is given.
fn drill_given<F: Files, K: Sink>(
    alloc: Global,
    args: &DrillArgs,
    given: Given,
    files: &mut F,
    sink: &mut K,
) -> Report
    requires fuel { IsUpTo most_fuel args.now.fuel }
    requires quantum { IsUpTo most_quantum args.now.quantum }
    requires few { length given.script.items ≤ max_script }
    ensures says { OrdersSay (call_of F.held F.faults files.old files.new
        (outcome_of K.told K.faults sink.old sink.new result)) args.now given.program given.script.items }
    ensures kept { F.held files.new ≡ F.held files.old }
{
    match load(alloc, files, Role::Script, args.script.as_str()) {
        Ok(orders) => play_drill(alloc, given, args.fuel, args.quantum, &orders, sink),
        Err(report) => report,
    }
}

// Plays the script `orders` on a new book of the program, and writes the drill's lines and then what the book shows. If the
// script can't be played, or memory runs out, nothing is written.
fn play_drill<K: Sink>(
    alloc: Global,
    given: Given,
    fuel: u64,
    quantum: u32,
    orders: &[u8],
    sink: &mut K,
) -> Report
    requires fuel { IsUpTo most_fuel fuel }
    requires quantum { IsUpTo most_quantum quantum }
    requires few { length given.script.items ≤ max_script }
    ensures { DrillEnds result.status (job_of given.program given.script.items fuel quantum) orders.now
        (outcome_of K.told K.faults sink.old sink.new result) }
{
    match drilled(alloc, given, fuel, quantum, orders) {
        Ok(end) => write_end(alloc, end, sink),
        Err(fault) => unplayed(fault),
    }
}

// The report of a script that couldn't be played.
fn unplayed(fault: DrillFault) -> Report
    ensures status { result.status ≡ unplayed_status fault }
    ensures blames { Blames result (unplayed_blame fault) }
{
    match fault {
        DrillFault::NoMemory => Report::bare(Status::NoMemory),
        DrillFault::BadLine(_) | DrillFault::NoSuchLease(_) | DrillFault::HeldTwice(_) => {
            Report::blaming(Status::BadScript, Blame::Script(fault))
        }
    }
}

// Plays the drill to its end.
fn drilled(
    alloc: Global,
    given: Given,
    fuel: u64,
    quantum: u32,
    orders: &[u8],
) -> Result<DrillEnd, DrillFault>
    requires fuel { IsUpTo most_fuel fuel }
    requires quantum { IsUpTo most_quantum quantum }
    requires few { length given.script.items ≤ max_script }
    ensures drilled { IfOk result (λ end. IsDrilled (job_of given.program given.script.items fuel quantum) (script_of orders.now)
        end.lines.items end.book) }
    ensures of_job { IfOk result (λ end. end.book.job ≡ job_of given.program given.script.items fuel quantum) }
    ensures refused { IfErr result (IsRefused (job_of given.program given.script.items fuel quantum) (script_of orders.now)) }
    ensures shown { IfOk result (λ end. IsShown end.book) }
{
    let Ok(job) = given.job(alloc, fuel, quantum) else {
        return Err(DrillFault::NoMemory);
    };
    drill(alloc, job, orders)
}

// Writes the drill's lines, and then what its book shows.
fn write_end<K: Sink>(alloc: Global, end: DrillEnd, sink: &mut K) -> Report
    requires { IsShown end.book }
    ensures { WriteEnds result.status end.lines.items end.book (outcome_of K.told K.faults sink.old sink.new result) }
{
    let DrillEnd { book, lines } = end;
    let Ok(text) = text_behind(alloc, lines, &book) else {
        return Report::bare(Status::NoMemory);
    };
    match put_lines(sink, &text) {
        Ok(()) => Report::making(Status::Done, Made::Book(book)),
        Err(SinkFail::Failed) => Report::making(Status::SinkFault, Made::Book(book)),
    }
}

// The lines, and after them what the book shows.
fn text_behind(alloc: Global, lines: Vec<u8>, book: &Book) -> Result<Vec<u8>, NoMemory>
    ensures { IfOk result (λ text. (shown : List ℕ) × IsShownText book.now shown × (text.items ≡ lines.items ++ shown)) }
{
    let mut text = lines;
    let shown = shown_text(alloc, book)?;
    text.extend_from_slice(&shown)?;
    Ok(text)
}
