//! Checks the program in a file.
ghost use Rattle.std.specs.Prelude.{◌≡◌, IfOk, string_bytes};
ghost use Rattle.call_report.specs.Call.{call_of};
ghost use Rattle.call_report.specs.Report.{outcome_of};
ghost use Rattle.file_commands.specs.Checking.{CheckEnds, CheckSays, checked_line};

use call_report::{Report, read_program_file};
use call_status::Status;
use stab_base::NoMemory;
use stab_code::Program;
use stab_files::{Files, Sink, SinkFail};
use stab_words::Name;
use std::alloc::Global;

/// Reads the program in the file, and writes how many functions and texts it has.
pub fn check_file<F: Files, K: Sink>(
    alloc: Global,
    file: &Name,
    files: &mut F,
    sink: &mut K,
) -> Report
    ensures says { CheckSays (call_of F.held F.faults files.old files.new
        (outcome_of K.told K.faults sink.old sink.new result)) file.now }
    ensures kept { F.held files.new ≡ F.held files.old }
{
    match read_program_file(alloc, files, file.as_str()) {
        Ok(program) => check_program(alloc, &program, sink),
        Err(report) => report,
    }
}

// Writes how many functions and texts the program has.
fn check_program<K: Sink>(alloc: Global, program: &Program, sink: &mut K) -> Report
    ensures { CheckEnds result.status program.now (outcome_of K.told K.faults sink.old sink.new result) }
{
    let Ok(line) = checked_line(alloc, program) else {
        return Report::bare(Status::NoMemory);
    };
    match sink.put(line.as_bytes()) {
        Ok(()) => Report::bare(Status::Done),
        Err(SinkFail::Failed) => Report::bare(Status::SinkFault),
    }
}

fn checked_line(alloc: Global, program: &Program) -> Result<String, NoMemory>
    ensures { IfOk result (λ line. string_bytes line ≡ checked_line program.now) }
{
    let functions = program.functions();
    let texts = program.texts().len();
    Ok(format!(in alloc; "ok functions {functions} texts {texts}\n")?)
}
