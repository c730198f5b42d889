//! What a call reports.
ghost use Rattle.std.specs.Prelude.{◌≡◌, Some, None};
ghost use Rattle.call_report.specs.Report.{Blames, Leaves};

use call_status::{Role, Status};
use commit_book::Book;
use drill_text::DrillFault;
use image_run::Resumed;
use image_text::ImageFault;
use probe_text::ProbesFault;
use stab_text::TextFault;
use stab_types::TypeFault;
use stab_words::WordFault;
use trace_text::TraceFault;
use trace_verify::Verdict;

/// What is wrong with what a call was given.
#[derive(Clone, Copy, PartialEq, Eq)]
pub enum Blame {
    /// Why the words were refused.
    Words(WordFault),
    /// The file that is missing, too big or unreadable, as the status says.
    File(Role),
    /// Why the program's file isn't a valid program.
    Text(TextFault),
    /// What is wrong with the probe file.
    Probes(ProbesFault),
    /// What is wrong with the trace file.
    Trace(TraceFault),
    /// What is wrong with the drill script, or which line of it can't be played.
    Script(DrillFault),
    /// Why the program isn't typed.
    Types(TypeFault),
    /// What is wrong with the image.
    Image(ImageFault),
}

/// What a call made, even if what it shows couldn't be written.
#[derive(Drop)]
pub enum Made {
    /// The book of a run or a drill. A `run` or `mill` that runs out of memory leaves its book once the run has begun; `trace` and
    /// `drill` then leave none.
    Book(Book),
    /// The verdict on a trace.
    Verdict(Verdict),
    /// What a run made that went on from an image.
    Resumed(Resumed),
}

/// How a call ended, what it made, and what it blames.
#[derive(Drop)]
pub struct Report {
    pub status: Status,
    pub made: Option<Made>,
    pub blame: Option<Blame>,
}

impl Report {
    /// A report of nothing but a status.
    pub fn bare(status: Status) -> Report
        ensures status { result.status ≡ status }
        ensures blames { Blames result None }
    {
        Report {
            status,
            made: None,
            blame: None,
        }
    }

    /// The report of what a call was given, with this blame.
    pub fn blaming(status: Status, blame: Blame) -> Report
        ensures status { result.status ≡ status }
        ensures blames { Blames result (Some blame) }
    {
        Report {
            status,
            made: None,
            blame: Some(blame),
        }
    }

    /// The report of what a call made.
    pub fn making(status: Status, made: Made) -> Report
        ensures status { result.status ≡ status }
        ensures leaves { Leaves result (Some made) }
    {
        Report {
            status,
            made: Some(made),
            blame: None,
        }
    }
}
