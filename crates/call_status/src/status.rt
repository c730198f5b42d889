//! How a call ended.
ghost use Rattle.std.specs.Prelude.{◌≡◌};
ghost use Rattle.call_status.specs.Status.{status_name, status_number};

/// How a call ended. Its number is the program's exit status.
#[derive(Clone, Copy, PartialEq, Eq, Debug)]
pub enum Status {
    /// The run came to rest, and every thread ended without a fault. For `check`, its line was written; for `types`, the program
    /// is typed; for `drill`, the script was played to its end; for `verify`, the trace is that of a run of the program; for
    /// `save`, the image was written.
    Done,
    /// The run came to rest, and some thread failed or waits.
    Held,
    /// The words aren't a valid command line, or an argument isn't text.
    BadWords,
    /// The program's file isn't a valid program.
    BadText,
    /// A file that the words name doesn't exist.
    NoFile,
    /// A file is larger than `Role::max_bytes`.
    TooBig,
    /// Reading a file failed.
    FileFault,
    /// Writing the output failed.
    SinkFault,
    /// The run used up its fuel, and a thread is still ready.
    Spent,
    /// The call ran out of memory.
    NoMemory,
    /// The probe file is malformed.
    BadProbes,
    /// The trace file is malformed.
    BadTrace,
    /// The drill script is malformed, or one of its lines can't be played.
    BadScript,
    /// The trace isn't that of a run of the program.
    No,
    /// A function of the program isn't typed.
    Untyped = 15,
    /// The trace is one of a run of the program, which has fewer cuts.
    NoCut,
    /// The image's file is malformed.
    BadImage,
}

impl Status {
    /// The exit status of the program.
    pub fn number(self) -> u8
        ensures { result ≡ status_number self }
    {
        self as u8
    }

    /// The name of the status in the reason line.
    pub fn name(self) -> &'static str
        ensures { result.now ≡ status_name self }
    {
        match self {
            Status::Done => "Done",
            Status::Held => "Held",
            Status::BadWords => "BadWords",
            Status::BadText => "BadText",
            Status::NoFile => "NoFile",
            Status::TooBig => "TooBig",
            Status::FileFault => "FileFault",
            Status::SinkFault => "SinkFault",
            Status::Spent => "Spent",
            Status::NoMemory => "NoMemory",
            Status::BadProbes => "BadProbes",
            Status::BadTrace => "BadTrace",
            Status::BadScript => "BadScript",
            Status::No => "No",
            Status::Untyped => "Untyped",
            Status::NoCut => "NoCut",
            Status::BadImage => "BadImage",
        }
    }
}
