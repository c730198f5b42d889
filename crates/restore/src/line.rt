//! The point to which a thread is rolled back.
ghost use Rattle.std.specs.Prelude.{◌≡◌};
ghost use Rattle.restore.specs.Noted.{earlier};

use stab_base::Seq;

/// To where a thread goes back when steps are undone.
#[derive(Clone, Copy, PartialEq, Eq, Debug)]
pub enum Line {
    /// To just before this step, the first of them in which it acts.
    From(Seq),
    /// Nowhere: the step that started it is undone, so it isn't there any more.
    Gone,
}

impl Line {
    /// The earlier of two lines of a thread. Nothing is earlier than its start.
    pub(crate) fn earlier(self, other: Line) -> Line
        ensures { result ≡ earlier self other }
    {
        match (self, other) {
            (Line::From(p), Line::From(q)) => Line::From(Seq(p.0.min(q.0))),
            _ => Line::Gone,
        }
    }
}
