//! Loads the files that a call reads.
ghost use Rattle.std.specs.Prelude.{◌≡◌, IfOk, IfErr};
ghost use Rattle.sink_lines.specs.Device.{device};
ghost use Rattle.call_report.specs.Loading.{blamed, LoadRefused, Loads};
ghost use Rattle.call_report.specs.Report.{Blames};

use crate::report::{Blame, Report};
use call_status::{Role, Status};
use stab_files::{Files, Loaded};
use std::alloc::Global;

/// The bytes of the file, or a report of why they couldn't be loaded: NoFile, TooBig, FileFault or NoMemory.
pub fn load<F: Files>(
    alloc: Global,
    files: &mut F,
    role: Role,
    name: &str,
) -> Result<Vec<u8>, Report>
    ensures ok { IfOk result (λ bytes. Loads role (device F.held F.faults files.old) name.now (F.faults files.new) bytes.items) }
    ensures err { IfErr result (λ report. LoadRefused report.status role (device F.held F.faults files.old) name.now (F.faults files.new)) }
    ensures blames { IfErr result (λ report. Blames report (blamed report.status role)) }
    ensures kept { F.held files.new ≡ F.held files.old }
{
    let status = match files.load(alloc, name, role.max_bytes()) {
        Loaded::Bytes(bytes) => return Ok(bytes),
        Loaded::Missing => Status::NoFile,
        Loaded::TooBig => Status::TooBig,
        Loaded::Failed => Status::FileFault,
        Loaded::NoMemory => Status::NoMemory,
    };
    Err(Report {
        status,
        made: None,
        blame: blame(status, role),
    })
}

// The file is blamed if it couldn't be loaded, but not for want of memory.
fn blame(status: Status, role: Role) -> Option<Blame>
    ensures { result ≡ blamed status role }
{
    match status {
        Status::NoFile | Status::TooBig | Status::FileFault => Some(Blame::File(role)),
        _ => None,
    }
}
