//! The image of a run at one of its cuts.
ghost use Rattle.std.specs.Prelude.{◌≡◌, ◌≤◌, ℕ, None, Some, length, take, IfOk};
ghost use Rattle.std.specs.FinMap.{from_entries};
ghost use Rattle.stab_base.specs.declared.numbers.ThreadId.{ThreadId as Threads};
ghost use Rattle.stab_journal.specs.declared.event.Label.TheVariants.{Cut};
ghost use Rattle.stab_journal.specs.declared.event.What.TheVariants.{Step};
ghost use Rattle.stab_journal.specs.Journal.{event_at};
ghost use Rattle.stab_text.specs.Text.{IsTextOf};
ghost use Rattle.language.specs.Plain.{standing};
ghost use Rattle.language.specs.Standing.{event};
ghost use Rattle.trace_verify.specs.Verdict.{IsOfRun};
ghost use Rattle.image_laws.specs.Image.{StandsAt};
ghost use Rattle.image_lines.specs.HeadText.{IsLength};
ghost use Rattle.image_text.specs.Rising.{IsRising};
ghost use Rattle.stab_image.specs.Found.{AreFound};
ghost use Rattle.stab_image.specs.Limits.{max_number};

use crate::image::Image;
use crate::named::Named;
use plain_language::PlainState;
use stab_base::{NoMemory, Seq, ThreadId};
use stab_code::Job;
use stab_journal::History;
use std::alloc::Global;
use std::sync::Arc;
use trace_verify::{Generations, replayed};

/// The image at the cut numbered q of a history to which `verify` says Yes. It takes as long as the verdict.
pub fn image_at(
    alloc: Global,
    text: &[u8],
    job: &Job,
    history: &History,
    q: Seq,
) -> Result<Image, NoMemory>
    requires text { IsTextOf text.now job.now.program }
    requires short { IsLength (length text.now) }
    requires of_run { IsOfRun job.now.program job.now.script history.now }
    requires small { q.0 ≤ max_number }
    requires cut { (w : ℕ) × (t : Threads) × (event_at history.now.events q.0 ≡ Some (event w (Step (Cut t)))) }
    ensures text { IfOk result (λ image. image.text ≡ text.now) }
    ensures stands { IfOk result (StandsAt job.now.program job.now.script (take q.0 history.now.events)) }
{
    prove!(q.0 <= history.len());
    let led = replayed(alloc, job, history, q.0)?;
    let named = Named::by_first(history, q.0);
    Ok(Image {
        text: Vec::from_slice(alloc, text)?,
        program: Arc::try_clone(job.program())?,
        script: Vec::from_slice(alloc, job.script())?,
        used: led.probes,
        cut: q.0,
        next_thread: named.thread.max(1) + 1,
        next_chan: named.chan + 1,
        next_ref: named.reference + 1,
        generations: generations_of(alloc, &led.state, &led.generations)?,
        state: led.state,
    })
}

// How often each thread that is there was put back, in the order of their numbers.
fn generations_of(
    alloc: Global,
    state: &PlainState,
    generations: &Generations,
) -> Result<Vec<(u32, u64)>, NoMemory>
    requires { standing state.now.state 0 ≡ None }
    ensures found { IfOk result (λ found. AreFound state.now.state generations.now (from_entries found.items)) }
    ensures rising { IfOk result (λ found. IsRising 0 found.items) }
{
    let mut found = Vec::new(alloc);
    let mut last = 0;
    while let Some((t, _)) = state.thread_after(last) {
        found.push((t.0, generations.of(t)))?;
        last = t.0;
    }
    Ok(found)
}
