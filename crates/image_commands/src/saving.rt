//! The image at a cut of a trace.
ghost use Rattle.std.specs.Prelude.{◌≡◌, ◌≤◌, length, IfOk};
ghost use Rattle.stab_code.specs.Limits.{max_script};
ghost use Rattle.image_lines.specs.HeadText.{IsLength};
ghost use Rattle.stab_image.specs.Limits.{max_number};
ghost use Rattle.stab_text.specs.Text.{IsTextOf};
ghost use Rattle.trace_verify.specs.Verdict.{IsOfRun};
ghost use Rattle.image_commands.specs.Saved.{IsSaved};

use crate::cuts::cut_at;
use stab_base::NoMemory;
use stab_code::{Job, Program};
use stab_image::{history_is_right, image_at, put_image};
use stab_journal::History;
use std::alloc::Global;
use std::sync::Arc;
use trace_verify::{Verdict, verify};

// A verdict needs neither fuel nor a quantum, but a job has both.
const FUEL: u64 = 1;

const QUANTUM: u32 = 1;

/// What comes of saving the image at a cut.
#[derive(Drop)]
pub enum Saved {
    /// The trace isn't one of a run: the verdict on it.
    Refused(Verdict),
    /// The run has fewer cuts.
    NoCut,
    /// The text of the image.
    Text(Vec<u8>),
}

/// The image at the n-th cut of a history, where it is one of a run of the program with the script and has so many. It takes as long
/// as two verdicts.
pub fn save(
    alloc: Global,
    text: &[u8],
    program: Program,
    script: Vec<i64>,
    history: &History,
    n: u32,
) -> Result<Saved, NoMemory>
    requires text { IsTextOf text.now program }
    requires fits { IsLength (length text.now) }
    requires few { length script.items ≤ max_script }
    requires short { length history.now.events ≤ max_number }
    requires some { 1 ≤ n }
    ensures { IfOk result (IsSaved text.now program script.items history.now n) }
{
    let job = Job::new(Arc::new(alloc, program)?, script, FUEL, QUANTUM);
    let verdict = verify(alloc, &job, history)?;
    match verdict {
        Verdict::Yes => saved_at(alloc, text, &job, history, n),
        Verdict::No(_, _) => Ok(Saved::Refused(verdict)),
    }
}

fn saved_at(
    alloc: Global,
    text: &[u8],
    job: &Job,
    history: &History,
    n: u32,
) -> Result<Saved, NoMemory>
    requires text { IsTextOf text.now job.now.program }
    requires fits { IsLength (length text.now) }
    requires of_run { IsOfRun job.now.program job.now.script history.now }
    requires short { length history.now.events ≤ max_number }
    requires some { 1 ≤ n }
    ensures { IfOk result (IsSaved text.now job.now.program job.now.script history.now n) }
{
    let Some(q) = cut_at(history, n) else {
        return Ok(Saved::NoCut);
    };
    let image = image_at(alloc, text, job, history, q)?;
    history_is_right(&image);
    let mut out = Vec::new(alloc);
    put_image(alloc, &image, &mut out)?;
    Ok(Saved::Text(out))
}
