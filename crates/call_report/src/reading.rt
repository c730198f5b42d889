//! Reads programs, probe files and traces from files.
ghost use Rattle.std.specs.Prelude.{◌≡◌, ◌≤◌, [], length, IfOk, IfErr};
ghost use Rattle.stab_code.specs.JobParts.{job_of};
ghost use Rattle.stab_code.specs.Limits.{max_script};
ghost use Rattle.stab_text.specs.Text.{IsTextOf};
ghost use Rattle.stab_words.specs.Command.{most_fuel, most_quantum};
ghost use Rattle.stab_words.specs.Within.{IsUpTo};
ghost use Rattle.sink_lines.specs.Device.{device};
ghost use Rattle.call_status.specs.Role.{max_bytes};
ghost use Rattle.call_report.specs.Reading.{AreGiven, AreRefused, BytesRefused, Holds, ReadRefused, probes_form, program_form, trace_form};
ghost use Rattle.call_status.specs.declared.role.Role.TheVariants.{Probes as ProbesFile, Program as ProgramFile, Trace as TraceFile};

use crate::loading::load;
use crate::report::{Blame, Report};
use call_status::{Role, Status};
use probe_text::{ProbesFault, read_probes};
use stab_base::NoMemory;
use stab_code::{Job, Program};
use stab_files::Files;
use stab_journal::History;
use stab_text::read_program;
use stab_words::RunArgs;
use std::alloc::Global;
use std::sync::Arc;
use trace_text::{TraceFault, read_trace};

/// The program in the file, or a report of why it couldn't be read: NoFile, TooBig, FileFault, BadText or NoMemory.
pub fn read_program_file<F: Files>(
    alloc: Global,
    files: &mut F,
    name: &str,
) -> Result<Program, Report>
    ensures ok { IfOk result (Holds program_form (device F.held F.faults files.old) name.now (F.faults files.new)) }
    ensures err { IfErr result (λ report. ReadRefused program_form report (device F.held F.faults files.old) name.now (F.faults files.new)) }
    ensures kept { F.held files.new ≡ F.held files.old }
{
    let bytes = load(alloc, files, Role::Program, name)?;
    program_of(alloc, &bytes)
}

/// The program with this text, or a report of BadText or NoMemory.
pub fn program_of(alloc: Global, bytes: &[u8]) -> Result<Program, Report>
    requires { length bytes.now ≤ max_bytes ProgramFile }
    ensures ok { IfOk result (program_form.IsOf bytes.now) }
    ensures err { IfErr result (λ report. BytesRefused program_form report bytes.now) }
{
    match read_program(alloc, bytes) {
        Ok(program) => Ok(program),
        Err(fault) if fault.is_no_memory() => Err(Report::bare(Status::NoMemory)),
        Err(fault) => Err(Report::blaming(Status::BadText, Blame::Text(fault))),
    }
}

/// The numbers in the probe file, or a report of why they couldn't be read: NoFile, TooBig, FileFault, BadProbes or NoMemory.
pub fn read_probes_file<F: Files>(
    alloc: Global,
    files: &mut F,
    name: &str,
) -> Result<Vec<i64>, Report>
    ensures ok { IfOk result (λ numbers. Holds probes_form (device F.held F.faults files.old) name.now (F.faults files.new) numbers.items) }
    ensures few { IfOk result (λ numbers. length numbers.items ≤ max_script) }
    ensures err { IfErr result (λ report. ReadRefused probes_form report (device F.held F.faults files.old) name.now (F.faults files.new)) }
    ensures kept { F.held files.new ≡ F.held files.old }
{
    let bytes = load(alloc, files, Role::Probes, name)?;
    probes_of(alloc, &bytes)
}

// The numbers in this text, or a report of BadProbes or NoMemory.
fn probes_of(alloc: Global, bytes: &[u8]) -> Result<Vec<i64>, Report>
    requires { length bytes.now ≤ max_bytes ProbesFile }
    ensures ok { IfOk result (λ numbers. probes_form.IsOf bytes.now numbers.items) }
    ensures few { IfOk result (λ numbers. length numbers.items ≤ max_script) }
    ensures err { IfErr result (λ report. BytesRefused probes_form report bytes.now) }
{
    match read_probes(alloc, bytes) {
        Ok(numbers) => Ok(numbers),
        Err(ProbesFault::NoMemory) => Err(Report::bare(Status::NoMemory)),
        Err(fault) => Err(Report::blaming(Status::BadProbes, Blame::Probes(fault))),
    }
}

/// A program, and the script: the numbers that its probes get, in order.
#[derive(Drop)]
pub struct Given {
    pub program: Program,
    pub script: Vec<i64>,
}

impl Given {
    /// The job of what is given, with this fuel and this quantum.
    pub fn job(self, alloc: Global, fuel: u64, quantum: u32) -> Result<Job, NoMemory>
        requires fuel { IsUpTo most_fuel fuel }
        requires quantum { IsUpTo most_quantum quantum }
        requires few { length self.script.items ≤ max_script }
        ensures { IfOk result (λ job. job ≡ job_of self.program self.script.items fuel quantum) }
    {
        let Given { program, script } = self;
        let program = Arc::new(alloc, program)?;
        Ok(Job::new(program, script, fuel, quantum))
    }
}

/// The program and the script of a run, or the report of why they couldn't be read. Without a probe file the script is empty.
pub fn read_run<F: Files>(alloc: Global, args: &RunArgs, files: &mut F) -> Result<Given, Report>
    ensures ok { IfOk result (λ given. AreGiven (device F.held F.faults files.old) (F.faults files.new) args.now given.program given.script.items) }
    ensures few { IfOk result (λ given. length given.script.items ≤ max_script) }
    ensures err { IfErr result (λ report. AreRefused report (device F.held F.faults files.old) (F.faults files.new) args.now) }
    ensures kept { F.held files.new ≡ F.held files.old }
{
    let program = read_program_file(alloc, files, args.file.as_str())?;
    let Some(file) = &args.probes else {
        return Ok(Given {
            program,
            script: Vec::new(alloc),
        });
    };
    let script = read_probes_file(alloc, files, file.as_str())?;
    Ok(Given { program, script })
}

/// The history in the trace file, or a report of why it couldn't be read: NoFile, TooBig, FileFault, BadTrace or NoMemory.
pub fn read_trace_file<F: Files>(
    alloc: Global,
    files: &mut F,
    name: &str,
) -> Result<History, Report>
    ensures ok { IfOk result (Holds trace_form (device F.held F.faults files.old) name.now (F.faults files.new)) }
    ensures err { IfErr result (λ report. ReadRefused trace_form report (device F.held F.faults files.old) name.now (F.faults files.new)) }
    ensures kept { F.held files.new ≡ F.held files.old }
{
    let bytes = load(alloc, files, Role::Trace, name)?;
    history_of(alloc, &bytes)
}

// The history with this text, or a report of BadTrace or NoMemory.
fn history_of(alloc: Global, bytes: &[u8]) -> Result<History, Report>
    requires { length bytes.now ≤ max_bytes TraceFile }
    ensures ok { IfOk result (trace_form.IsOf bytes.now) }
    ensures err { IfErr result (λ report. BytesRefused trace_form report bytes.now) }
{
    match read_trace(alloc, bytes) {
        Ok(history) => Ok(history),
        Err(TraceFault::NoMemory) => Err(Report::bare(Status::NoMemory)),
        Err(fault) => Err(Report::blaming(Status::BadTrace, Blame::Trace(fault))),
    }
}
