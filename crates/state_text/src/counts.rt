//! How many threads of a state ended, failed and wait.
ghost use Rattle.std.specs.Prelude.{◌≡◌, ◌<◌, None, map as each};
ghost use Rattle.std.specs.FinMap as map;
ghost use Rattle.language.specs.Plain.{look_in, standing};
ghost use Rattle.state_text.specs.Counts.{AreCounts, counted};

use plain_language::{Look, PlainState};

/// How many threads ended without a fault, how many with one, and how many are there besides.
#[derive(Clone, Copy)]
pub(crate) struct Counts {
    pub(crate) ended: u64,
    pub(crate) faulted: u64,
    pub(crate) waiting: u64,
}

impl Counts {
    /// Counts one thread more, of which this is next.
    fn and(self, look: Look) -> Counts
        requires ended { self.ended < 4294967296 }
        requires faulted { self.faulted < 4294967296 }
        requires waiting { self.waiting < 4294967296 }
        ensures { result ≡ counted look self }
    {
        match look {
            Look::Done => Counts {
                ended: self.ended + 1,
                ..self
            },
            Look::Failed(_) => Counts {
                faulted: self.faulted + 1,
                ..self
            },
            Look::Pure | Look::Act(_) => Counts {
                waiting: self.waiting + 1,
                ..self
            },
        }
    }
}

/// Counts the threads of a state.
pub(crate) fn counts_of(state: &PlainState) -> Counts
    requires { standing state.now.state 0 ≡ None }
    ensures { AreCounts (each (look_in state.now.program) (map.values state.now.state.threads)) result }
{
    let mut counts = Counts {
        ended: 0,
        faulted: 0,
        waiting: 0,
    };
    let mut last = 0;
    while let Some((t, e)) = state.thread_after(last) {
        counts = counts.and(e.look());
        last = t.0;
    }
    counts
}
