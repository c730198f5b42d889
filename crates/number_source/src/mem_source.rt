ghost use Rattle.std.specs.Prelude.{◌≡◌, ◌≢◌, ◌++◌, ◌||◌, [], None, Some, IfOk, IfSome, IfNone, IsTrue, unwrap_or};
ghost use Rattle.number_source.specs.Came.{final_in, is_end, numbers_in};
ghost use Rattle.number_source.specs.Sources.{has_ended, next_answer, plan_behind};

use crate::bell::Bell;
use crate::came::{Came, final_in};
use crate::source::NumberSource;
use stab_base::NoMemory;
use std::alloc::Global;
use std::marker::Model;
use std::sync::Wait;

/// A source in memory that answers by a plan, and then that the input has ended. `Nothing` in a plan is a gap: whoever waits
/// doesn't see it. Its bell rings at the beginning and behind each gap that was seen.
#[derive(Drop)]
pub struct MemSource {
    plan: Vec<Came>,
    next: usize,
    last: Option<Came>,
    bell: Bell,
}

impl Model for MemSource {
    ghost use Rattle.std.specs.Prelude.{◌≡◌, ◌≤◌, drop, take, vec_len};
    ghost use Rattle.number_source.specs.Came.{numbers_of};
    ghost use Rattle.number_source.specs.Sources.{Planned, kept};

    ghost Value = { Planned };

    ghost view = { λ s. record { plan = drop s.next s.plan.items; came = numbers_of (take s.next s.plan.items); last = s.last } };

    ghost invariant = { λ s. (s.next ≤ vec_len s.plan) × (kept s.last ≡ s.last) };
}

impl MemSource {
    /// A source that answers by this plan.
    pub fn new(alloc: Global, plan: Vec<Came>) -> Result<MemSource, NoMemory>
        ensures { IfOk result (λ source. source ≡ record { plan = plan.items; came = []; last = None }) }
    {
        let bell = Bell::new(alloc)?;
        bell.ring();
        Ok(MemSource {
            plan,
            next: 0,
            last: None,
            bell,
        })
    }

    // The next answer of the plan.
    fn next(&mut self, wait: bool) -> Came
        ensures answer { result ≡ next_answer wait self.old.plan }
        ensures plan { self.new.plan ≡ plan_behind wait self.old.plan }
        ensures came { self.new.came ≡ self.old.came ++ numbers_in result }
        ensures waited { IsTrue wait → result ≢ Came.Nothing }
    {
        while self.next < self.plan.len() {
            let answer = self.plan[self.next];
            self.next += 1;
            let Came::Nothing = answer else {
                return answer;
            };
            if !wait {
                self.bell.ring();
                return Came::Nothing;
            }
        }
        Came::End
    }
}

impl NumberSource for MemSource {
    ghost came = { λ s. s.came };

    ghost ended = { λ s. has_ended s.last };

    ghost last = { λ s. s.last };

    fn take<R: Wait>(&mut self, _rt: &R, wait: bool) -> Came
        ensures came { self.new.came ≡ self.old.came ++ numbers_in result }
        ensures ended { has_ended self.new.last ≡ (has_ended self.old.last || is_end result) }
        ensures last { self.new.last ≡ final_in result }
        ensures again { IfSome self.old.last (λ answer. result ≡ answer) }
        ensures waited { IsTrue wait → result ≢ Came.Nothing }
        ensures planned { result ≡ unwrap_or self.old.last (next_answer wait self.old.plan) }
        ensures plan { IfNone self.old.last (self.new.plan ≡ plan_behind wait self.old.plan) }
    {
        if let Some(last) = self.last {
            return last;
        }
        let answer = self.next(wait);
        self.last = final_in(answer);
        answer
    }

    fn bell(&self) -> &Bell {
        &self.bell
    }
}
