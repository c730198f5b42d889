//! Plays a whole script.
ghost use Rattle.std.specs.Prelude.{◌≡◌, IfOk, IfErr, IfSome};
ghost use Rattle.std.specs.List.{All};
ghost use Rattle.std.specs.FinMap as map;
ghost use Rattle.commit_book.specs.Book.{IsShown};
ghost use Rattle.drill_text.specs.Order.{HasLease};
ghost use Rattle.drill_text.specs.Script.{script_of};
ghost use Rattle.schedule_drill.specs.Drilled.{ArePlayed, IsDrilled, IsRefused, IsStopped};
ghost use Rattle.schedule_drill.specs.Out.{AreUnder};
ghost use Rattle.schedule_drill.specs.Played.{stand};

use crate::leases::Leases;
use crate::play::play;
use commit_book::Book;
use drill_text::{DrillFault, Line, read_script};
use stab_code::Job;
use std::alloc::Global;

/// What a drill ends with.
#[derive(Drop)]
pub struct DrillEnd {
    /// The book, once all leases were given back.
    pub book: Book,
    /// The drill's lines.
    pub lines: Vec<u8>,
}

/// Plays a script on a new book: each line leases a thread, makes the pure steps of one that is lent, or commits it. The job
/// and the script determine what is written, and the desk of the book.
pub fn drill(alloc: Global, job: Job, script: &[u8]) -> Result<DrillEnd, DrillFault>
    ensures drilled { IfOk result (λ end. IsDrilled job (script_of script.now) end.lines.items end.book) }
    ensures of_job { IfOk result (λ end. end.book.job ≡ job) }
    ensures refused { IfErr result (IsRefused job (script_of script.now)) }
    ensures shown { IfOk result (λ end. IsShown end.book) }
{
    let script = read_script(alloc, script)?;
    let mut book = Book::new(alloc, job)?;
    let mut leases = Leases::new(alloc);
    let played = play_all(alloc, &mut book, &mut leases, &script);
    leases.give_back(&mut book);
    Ok(DrillEnd {
        book,
        lines: played?,
    })
}

// Plays line after line: what is written of them, or why one isn't played.
fn play_all(
    alloc: Global,
    book: &mut Book,
    leases: &mut Leases,
    script: &[Line],
) -> Result<Vec<u8>, DrillFault>
    requires numbers { All (λ line. IfSome line.order HasLease) script.now }
    requires under { AreUnder book.old.job.program leases.old }
    ensures played { IfOk result (λ lines. ArePlayed script.now (stand book.old leases.old) lines.items (stand book.new leases.new)) }
    ensures stopped { IfErr result (IsStopped (stand book.old leases.old) script.now) }
    ensures shown { IsShown book.new }
{
    // Read for its clause that a book shows a run.
    let _shown = book.job();
    let mut lines = Vec::new(alloc);
    for line in script {
        let text = play(alloc, book, leases, line)?;
        lines.extend_from_slice(text.as_bytes())?;
    }
    Ok(lines)
}
