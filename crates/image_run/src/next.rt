//! The numbers that new threads, channels and references get.
ghost use Rattle.std.specs.Prelude.{◌≡◌, ◌<◌};
ghost use Rattle.image_run.specs.Next.{next_after};

use stab_journal::{Label, What};

/// The numbers that the next thread, channel and reference get.
#[derive(Clone, Copy)]
pub struct Next {
    pub thread: u32,
    pub chan: u32,
    pub reference: u32,
}

impl Next {
    /// The next numbers after an event.
    pub(crate) fn after(self, what: What) -> Next
        requires thread { self.thread < 4294967295 }
        requires chan { self.chan < 4294967295 }
        requires reference { self.reference < 4294967295 }
        ensures { result ≡ next_after self what }
    {
        match what {
            What::Step(Label::Spawn(_, _)) => Next {
                thread: self.thread + 1,
                chan: self.chan,
                reference: self.reference,
            },
            What::Step(Label::NewChan(_, _)) => Next {
                thread: self.thread,
                chan: self.chan + 1,
                reference: self.reference,
            },
            What::Step(Label::NewRef(_, _)) => Next {
                thread: self.thread,
                chan: self.chan,
                reference: self.reference + 1,
            },
            _ => self,
        }
    }
}
