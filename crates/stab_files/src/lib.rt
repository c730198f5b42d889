//! Where programs are read from and where text is written to: files by name and sinks of bytes,
//! each with a count of its faults.
#![tactic(auto)]

mod devices;
mod disk_files;
mod mem_files;
mod mem_sink;
mod out_sink;
mod planned;
mod retrying;
mod system;

pub use devices::{Files, Loaded, Sink, SinkFail};
pub use disk_files::DiskFiles;
pub use mem_files::MemFiles;
pub use mem_sink::{MemSink, SinkRefused};
pub use out_sink::OutSink;
pub use system::System;
