//! A file that is appended to, synced and cut, in memory and of the system: which of its bytes a crash leaves.
#![tactic(auto)]

mod device;
mod disk_log;
mod mem_log;
mod system;

pub use device::{LogFail, LogFile, Opened};
pub use disk_log::DiskLog;
pub use mem_log::{LogRefused, MemLog};
pub use system::{Device, System};
