ghost use Rattle.std.specs.Prelude.{◌≡◌, ◌≢◌, ◌++◌, ◌||◌, [], None, Some, IfOk, IfSome, IsTrue};
ghost use Rattle.number_source.specs.Came.{final_in, is_end, numbers_in, numbers_of};
ghost use Rattle.number_source.specs.Sources.{has_ended};
ghost use Rattle.rtrb.specs.Ring.{received};

use crate::bell::Bell;
use crate::came::{Came, final_in};
use crate::line::Line;
use crate::outlet::Outlet;
use crate::reading::read_input;
use crate::source::NumberSource;
use rtrb::{Consumer, RingBuffer};
use stab_base::NoMemory;
use std::alloc::Global;
use std::io::{BufReader, Read};
use std::marker::Model;
use std::sync::Wait;
use std::thread;
use std::thread::Threads;

/// How many answers wait to be taken at most. What comes faster waits in the input.
const ROOM: usize = 1_024;

/// The numbers of an input, one a line, that a thread of its own reads. The lines are those of a probe file; one that has more
/// than 1,048,576 bytes before its line feed is no number. A read that fails is `Failed`, and so is a thread that can't be had.
#[derive(Drop)]
pub struct InputSource {
    queue: Consumer<Came>,
    last: Option<Came>,
    bell: Bell,
}

impl Model for InputSource {
    ghost use Rattle.std.specs.Prelude.{◌≡◌};
    ghost use Rattle.number_source.specs.Came.{numbers_of};
    ghost use Rattle.number_source.specs.Sources.{Taken, kept};
    ghost use Rattle.rtrb.specs.Ring.{received};

    ghost Value = { Taken };

    ghost view = { λ s. record { came = numbers_of (received s.queue); last = s.last } };

    ghost invariant = { λ s. kept s.last ≡ s.last };
}

impl InputSource {
    /// Starts the thread. It is never waited for, and is cut off where the program ends.
    pub fn new<R: Threads + Wait + Copy + Send + 'static, I: Read + Send + Drop + 'static>(
        rt: &R,
        alloc: Global,
        input: I,
    ) -> Result<InputSource, NoMemory>
        ensures { IfOk result (λ source. source ≡ record { came = []; last = None }) }
    {
        let (producer, queue) = RingBuffer::new(alloc, ROOM)?;
        let bell = Bell::new(alloc)?;
        let mut out = Outlet::new(producer, bell.share()?);
        let line = Line::new(alloc)?;
        let Ok(input) = BufReader::new(alloc, input) else {
            return Err(NoMemory);
        };
        let own = *rt;
        let _ = thread::spawn(rt, move || {
            read_input(&own, input, line, &mut out);
        });
        Ok(InputSource {
            queue,
            last: None,
            bell,
        })
    }

    // The next answer, where the last one wasn't final.
    fn next<R: Wait>(&mut self, rt: &R, wait: bool) -> Came
        ensures came { self.new.came ≡ self.old.came ++ numbers_in result }
        ensures waited { IsTrue wait → result ≢ Came.Nothing }
    {
        for _ in rt.forever() {
            let answer = self.pop();
            if !wait || !matches!(answer, Came::Nothing) {
                return answer;
            }
            self.bell.wait(rt);
        }
        unreachable!()
    }

    #[tactic(auto, using(crate::proofs::Numbers::numbers_of_snoc))]
    // What is in the queue, or why nothing is. It looks once more after the thread has ended, since that puts its last answer
    // before it ends.
    fn pop(&mut self) -> Came
        ensures { self.new.came ≡ self.old.came ++ numbers_in result }
    {
        if let Ok(answer) = self.queue.pop() {
            return answer;
        }
        if !self.queue.is_abandoned() {
            return Came::Nothing;
        }
        if let Ok(answer) = self.queue.pop() {
            return answer;
        }
        Came::Failed
    }
}

impl NumberSource for InputSource {
    ghost came = { λ s. s.came };

    ghost ended = { λ s. has_ended s.last };

    ghost last = { λ s. s.last };

    fn take<R: Wait>(&mut self, rt: &R, wait: bool) -> Came {
        if let Some(last) = self.last {
            return last;
        }
        let answer = self.next(rt, wait);
        self.last = final_in(answer);
        answer
    }

    fn bell(&self) -> &Bell {
        &self.bell
    }
}
