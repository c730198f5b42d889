//! Judges the trace of a run.
ghost use Rattle.std.specs.Prelude.{◌≡◌, ◌≤◌, length, IfOk, Some, string_bytes};
ghost use Rattle.stab_code.specs.Limits.{max_script};
ghost use Rattle.trace_verify.specs.Verdict.{IsVerdict};
ghost use Rattle.call_report.specs.declared.report.Made.TheVariants.{Verdict as MadeVerdict};
ghost use Rattle.call_report.specs.Call.{ScriptSays, call_of};
ghost use Rattle.call_report.specs.Report.{Leaves, outcome_of};
ghost use Rattle.file_commands.specs.Judging.{IsTold, TraceSays, VerdictEnds, VerifySays, verdict_line, verdict_status};

use call_report::{
    Made, Report, failing_words, read_probes_file, read_program_file, read_trace_file,
};
use call_status::Status;
use stab_base::NoMemory;
use stab_code::{Job, Program};
use stab_files::{Files, Sink, SinkFail};
use stab_journal::History;
use stab_words::{Name, VerifyArgs};
use std::alloc::Global;
use std::sync::Arc;
use trace_verify::{Verdict, verify};

// A verdict needs neither fuel nor a quantum, but a job has both.
const FUEL: u64 = 1;

const QUANTUM: u32 = 1;

/// Judges the trace in its file against the program in the file and the probe script.
pub fn verify_file<F: Files, K: Sink>(
    alloc: Global,
    args: &VerifyArgs,
    files: &mut F,
    sink: &mut K,
) -> Report
    ensures says { VerifySays (call_of F.held F.faults files.old files.new
        (outcome_of K.told K.faults sink.old sink.new result)) args.now }
    ensures kept { F.held files.new ≡ F.held files.old }
{
    match read_program_file(alloc, files, args.file.as_str()) {
        Ok(program) => verify_program(alloc, args, program, files, sink),
        Err(report) => report,
    }
}

// Judges the trace in its file against the program and the probe script.
fn verify_program<F: Files, K: Sink>(
    alloc: Global,
    args: &VerifyArgs,
    program: Program,
    files: &mut F,
    sink: &mut K,
) -> Report
    ensures says { let c = call_of F.held F.faults files.old files.new (outcome_of K.told K.faults sink.old sink.new result) in
        ScriptSays c args.now.probes (λ script. TraceSays c args.now.trace program script) }
    ensures kept { F.held files.new ≡ F.held files.old }
{
    let Some(file) = &args.probes else {
        return judge_file(alloc, &args.trace, program, Vec::new(alloc), files, sink);
    };
    match read_probes_file(alloc, files, file.as_str()) {
        Ok(script) => judge_file(alloc, &args.trace, program, script, files, sink),
        Err(report) => report,
    }
}

// Judges the trace in the file against the program and the script.
fn judge_file<F: Files, K: Sink>(
    alloc: Global,
    trace: &Name,
    program: Program,
    script: Vec<i64>,
    files: &mut F,
    sink: &mut K,
) -> Report
    requires few { length script.items ≤ max_script }
    ensures says { TraceSays (call_of F.held F.faults files.old files.new
        (outcome_of K.told K.faults sink.old sink.new result)) trace.now program script.items }
    ensures kept { F.held files.new ≡ F.held files.old }
{
    match read_trace_file(alloc, files, trace.as_str()) {
        Ok(history) => judge(alloc, program, script, &history, sink),
        Err(report) => report,
    }
}

// Writes the verdict on the history: whether it is that of a run of the program with the script, and if not, its first bad
// event.
fn judge<K: Sink>(
    alloc: Global,
    program: Program,
    script: Vec<i64>,
    history: &History,
    sink: &mut K,
) -> Report
    requires few { length script.items ≤ max_script }
    ensures { VerdictEnds result.status program script.items history.now (outcome_of K.told K.faults sink.old sink.new result) }
{
    let Ok(verdict) = verdict_on(alloc, program, script, history) else {
        return Report::bare(Status::NoMemory);
    };
    match verdict_line(alloc, verdict) {
        Ok(line) => write_verdict(verdict, line.as_bytes(), sink),
        Err(NoMemory) => Report::bare(Status::NoMemory),
    }
}

fn verdict_on(
    alloc: Global,
    program: Program,
    script: Vec<i64>,
    history: &History,
) -> Result<Verdict, NoMemory>
    requires few { length script.items ≤ max_script }
    ensures { IfOk result (IsVerdict program script.items history.now) }
{
    let job = Job::new(Arc::new(alloc, program)?, script, FUEL, QUANTUM);
    verify(alloc, &job, history)
}

fn verdict_line(alloc: Global, verdict: Verdict) -> Result<String, NoMemory>
    ensures { IfOk result (λ line. string_bytes line ≡ verdict_line verdict) }
{
    match verdict {
        Verdict::Yes => Ok(String::from_str(alloc, "yes\n")?),
        Verdict::No(_, _) => {
            let failing = failing_words(alloc, verdict)?;
            Ok(format!(in alloc; "no{failing}\n")?)
        }
    }
}

// Writes the line of a verdict.
fn write_verdict<K: Sink>(verdict: Verdict, line: &[u8], sink: &mut K) -> Report
    requires line { line.now ≡ verdict_line verdict }
    ensures reported { Leaves result (Some (MadeVerdict verdict)) }
    ensures told { IsTold result.status verdict (outcome_of K.told K.faults sink.old sink.new result) }
{
    match sink.put(line) {
        Ok(()) => Report::making(status_of(verdict), Made::Verdict(verdict)),
        Err(SinkFail::Failed) => Report::making(Status::SinkFault, Made::Verdict(verdict)),
    }
}

fn status_of(verdict: Verdict) -> Status
    ensures { result ≡ verdict_status verdict }
{
    match verdict {
        Verdict::Yes => Status::Done,
        Verdict::No(_, _) => Status::No,
    }
}
