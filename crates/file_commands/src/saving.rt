//! Saves the image at a cut of a trace.
ghost use Rattle.std.specs.Prelude.{◌≡◌, ◌≤◌, length, IfErr, IfOk};
ghost use Rattle.sink_lines.specs.Device.{device};
ghost use Rattle.stab_code.specs.Limits.{max_script};
ghost use Rattle.stab_image.specs.Limits.{max_number};
ghost use Rattle.stab_text.specs.Text.{IsTextOf};
ghost use Rattle.stab_words.specs.Command.{most_size};
ghost use Rattle.stab_words.specs.Within.{IsUpTo};
ghost use Rattle.file_commands.specs.Saving.{CutSays, IsPut, SaveEnds, SaveSays, source_form};
ghost use Rattle.call_report.specs.Call.{ScriptSays, call_of};
ghost use Rattle.call_report.specs.Report.{outcome_of};
ghost use Rattle.call_status.specs.Role.{max_bytes};
ghost use Rattle.call_report.specs.Reading.{BytesRefused, Holds, ReadRefused};
ghost use Rattle.call_status.specs.declared.role.Role.TheVariants.{Program as ProgramFile};

use call_report::{Made, Report, load, program_of, read_probes_file, read_trace_file};
use call_status::{Role, Status};
use image_commands::{Saved, save};
use sink_lines::put_lines;
use stab_code::Program;
use stab_files::{Files, Sink, SinkFail};
use stab_journal::History;
use stab_words::SaveArgs;
use std::alloc::Global;

/// A program with its text.
#[derive(Drop)]
pub struct Source {
    pub text: Vec<u8>,
    pub program: Program,
}

/// Reads the program of a file, a script and a trace, and writes the image at a cut of the trace.
pub fn save_file<F: Files, K: Sink>(
    alloc: Global,
    args: &SaveArgs,
    files: &mut F,
    sink: &mut K,
) -> Report
    requires { IsUpTo most_size args.now.at }
    ensures says { SaveSays (call_of F.held F.faults files.old files.new
        (outcome_of K.told K.faults sink.old sink.new result)) args.now }
    ensures kept { F.held files.new ≡ F.held files.old }
{
    match read_source_file(alloc, files, args.file.as_str()) {
        Ok(source) => save_source(alloc, args, source, files, sink),
        Err(report) => report,
    }
}

// The program in the file with its text, or the report of why it couldn't be read.
fn read_source_file<F: Files>(alloc: Global, files: &mut F, name: &str) -> Result<Source, Report>
    ensures ok { IfOk result (Holds source_form (device F.held F.faults files.old) name.now (F.faults files.new)) }
    ensures text { IfOk result (λ source. IsTextOf source.text.items source.program) }
    ensures fits { IfOk result (λ source. length source.text.items ≤ max_bytes ProgramFile) }
    ensures err { IfErr result (λ report. ReadRefused source_form report (device F.held F.faults files.old) name.now (F.faults files.new)) }
    ensures kept { F.held files.new ≡ F.held files.old }
{
    let text = load(alloc, files, Role::Program, name)?;
    source_of(alloc, text)
}

fn source_of(alloc: Global, text: Vec<u8>) -> Result<Source, Report>
    requires { length text.items ≤ max_bytes ProgramFile }
    ensures ok { IfOk result (source_form.IsOf text.items) }
    ensures text { IfOk result (λ source. IsTextOf source.text.items source.program) }
    ensures fits { IfOk result (λ source. length source.text.items ≤ max_bytes ProgramFile) }
    ensures err { IfErr result (λ report. BytesRefused source_form report text.items) }
{
    let program = program_of(alloc, &text)?;
    Ok(Source { text, program })
}

// Reads a script and a trace, and writes the image.
fn save_source<F: Files, K: Sink>(
    alloc: Global,
    args: &SaveArgs,
    source: Source,
    files: &mut F,
    sink: &mut K,
) -> Report
    requires at { IsUpTo most_size args.now.at }
    requires text { IsTextOf source.text.items source.program }
    requires fits { length source.text.items ≤ max_bytes ProgramFile }
    ensures says { let c = call_of F.held F.faults files.old files.new (outcome_of K.told K.faults sink.old sink.new result) in
        ScriptSays c args.now.probes (λ script. CutSays c args.now source script) }
    ensures kept { F.held files.new ≡ F.held files.old }
{
    let Some(file) = &args.probes else {
        return save_trace(alloc, args, source, Vec::new(alloc), files, sink);
    };
    match read_probes_file(alloc, files, file.as_str()) {
        Ok(script) => save_trace(alloc, args, source, script, files, sink),
        Err(report) => report,
    }
}

// Reads a trace, and writes the image.
fn save_trace<F: Files, K: Sink>(
    alloc: Global,
    args: &SaveArgs,
    source: Source,
    script: Vec<i64>,
    files: &mut F,
    sink: &mut K,
) -> Report
    requires at { IsUpTo most_size args.now.at }
    requires text { IsTextOf source.text.items source.program }
    requires fits { length source.text.items ≤ max_bytes ProgramFile }
    requires few { length script.items ≤ max_script }
    ensures says { CutSays (call_of F.held F.faults files.old files.new
        (outcome_of K.told K.faults sink.old sink.new result)) args.now source script.items }
    ensures kept { F.held files.new ≡ F.held files.old }
{
    match read_trace_file(alloc, files, args.trace.as_str()) {
        Ok(history) => save_cut(alloc, source, script, &history, args.at, sink),
        Err(report) => report,
    }
}

// Writes the image at the n-th cut of a history.
fn save_cut<K: Sink>(
    alloc: Global,
    source: Source,
    script: Vec<i64>,
    history: &History,
    n: u32,
    sink: &mut K,
) -> Report
    requires some { 1 ≤ n }
    requires text { IsTextOf source.text.items source.program }
    requires fits { length source.text.items ≤ max_bytes ProgramFile }
    requires few { length script.items ≤ max_script }
    requires short { length history.now.events ≤ max_number }
    ensures { SaveEnds result.status source.text.items source.program script.items history.now n (outcome_of K.told K.faults sink.old sink.new result) }
{
    let Source { text, program } = source;
    match save(alloc, &text, program, script, history, n) {
        Ok(Saved::Refused(verdict)) => Report::making(Status::No, Made::Verdict(verdict)),
        Ok(Saved::NoCut) => Report::bare(Status::NoCut),
        Ok(Saved::Text(bytes)) => put_image_text(&bytes, sink),
        Err(_) => Report::bare(Status::NoMemory),
    }
}

fn put_image_text<K: Sink>(bytes: &[u8], sink: &mut K) -> Report
    ensures { IsPut result.status bytes.now (outcome_of K.told K.faults sink.old sink.new result) }
{
    match put_lines(sink, bytes) {
        Ok(()) => Report::bare(Status::Done),
        Err(SinkFail::Failed) => Report::bare(Status::SinkFault),
    }
}
