//! A kept state whose history is shown on a board after each call that adds to it.
ghost use Rattle.std.specs.Prelude.{◌≡◌};
ghost use Rattle.std.specs.Arc.{arc_value};
ghost use Rattle.stab_watch.specs.Passes.{HasShown};

use crate::board::Board;
use crate::passes::WritePass;
use stab_code::Job;
use stab_journal::History;
use std::sync::{Arc, Wait};
use turn_floor::{Kept, Told};

/// A kept state, and the board that shows its history.
#[derive(Drop)]
pub struct Watched<'a, K: Kept, R: Wait> {
    pub(crate) kept: K,
    pub(crate) board: Arc<Board>,
    pub(crate) writer: WritePass,
    pub(crate) rt: &'a R,
    ghost own: { writer.board ≡ arc_value board },
    ghost shows: { HasShown (K.events_of kept) writer },
}

impl<'a, K: Kept, R: Wait> Watched<'a, K, R> {
    /// Watches a state whose history the board's writer has shown last.
    pub fn new(rt: &'a R, kept: K, board: Arc<Board>, writer: WritePass) -> Self
        requires own { writer.board ≡ arc_value board }
        requires shown { HasShown (K.events_of kept) writer }
        ensures kept { result.kept ≡ kept }
        ensures writer { result.writer ≡ writer }
    {
        Watched {
            kept,
            board,
            writer,
            rt,
        }
    }

    /// Gives the state and the writer back.
    pub fn into_kept(self) -> (K, WritePass)
        ensures kept { result.0 ≡ self.entry.kept }
        ensures writer { result.1 ≡ self.entry.writer }
        ensures own { result.1.board ≡ arc_value self.entry.board }
        ensures shown { HasShown (K.events_of result.0) result.1 }
    {
        (self.kept, self.writer)
    }
}

impl<'a, K: Kept, R: Wait> Kept for Watched<'a, K, R> {
    type Ask = K::Ask;

    type Answer = K::Answer;

    ghost job_of = { λ w. K.job_of w.kept };

    ghost events_of = { λ w. K.events_of w.kept };

    ghost commits_of = { λ w. K.commits_of w.kept };

    ghost stale_of = { λ w. K.stale_of w.kept };

    ghost told_of = { K.told_of };

    ghost asks = { K.asks };

    ghost answers = { K.answers };

    ghost serves = { λ before worker ask answer after. K.serves before.kept worker ask answer after.kept };

    fn job(&self) -> &Job {
        self.kept.job()
    }

    fn history(&self) -> &History {
        self.kept.history()
    }

    fn told(answer: &K::Answer) -> Told {
        K::told(answer)
    }

    fn serve(&mut self, worker: u32, ask: K::Ask) -> K::Answer {
        let answer = self.kept.serve(worker, ask);
        let history = self.kept.history();
        self.board.show(self.rt, &mut self.writer, history);
        answer
    }
}
