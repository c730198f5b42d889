//! Where answers go in that the reader's thread has.
ghost use Rattle.std.specs.Prelude.{◌≡◌, [], ◌∷◌, ◌++◌, if◌then◌else◌};
ghost use Rattle.rtrb.specs.Ring.{sent};

use crate::bell::Bell;
use crate::came::Came;
use rtrb::Producer;
use std::sync::Wait;
use std::sync::atomic::AtomicU64;
use std::time::Duration;

/// How many microseconds it sleeps where the queue is full.
const NAP: u64 = 1_000;

/// One end of a queue of answers, and the bell that rings for each.
#[derive(Drop)]
pub(crate) struct Outlet {
    pub(crate) queue: Producer<Came>,
    bell: Bell,
}

impl Outlet {
    pub(crate) fn new(queue: Producer<Came>, bell: Bell) -> Outlet
        ensures { result.queue ≡ queue }
    {
        Outlet { queue, bell }
    }

    /// Puts an answer behind the others and rings, once there is room. It says whether it did so: not where nobody takes
    /// answers any more.
    pub(crate) fn put<R: Wait>(&mut self, rt: &R, answer: Came) -> bool
        ensures { sent self.new.queue ≡ (if result then sent self.old.queue ++ answer ∷ [] else sent self.old.queue) }
    {
        for _ in rt.forever() {
            if self.queue.push(answer).is_ok() {
                self.bell.ring();
                return true;
            }
            if self.queue.is_abandoned() {
                return false;
            }
            AtomicU64::new(0).park_timeout(rt, 0, Duration::from_micros(NAP));
        }
        unreachable!()
    }
}
