//! How many threads are in each state.

ghost use Rattle.std.specs.Prelude.{◌≡◌, ◌+◌, ◌-◌, ◌<◌, if◌then◌else◌};
ghost use Rattle.thread_slots.specs.Slot.{count_of, same_state};

use crate::state::State;

/// How many threads are in each state.
#[derive(Clone, Copy, PartialEq, Eq)]
pub struct StateCounts {
    pub ready: u64,
    pub leased: u64,
    pub parked: u64,
    pub ended: u64,
}

impl StateCounts {
    /// No threads.
    pub(crate) fn none() -> Self
        ensures { (s : State) → count_of result s ≡ 0 }
    {
        StateCounts {
            ready: 0,
            leased: 0,
            parked: 0,
            ended: 0,
        }
    }

    /// With one more in this state.
    pub(crate) fn with(self, state: State) -> Self
        requires { count_of self state < u64.MAX }
        ensures { (s : State) → count_of result s
            ≡ (if same_state s state then count_of self s + 1 else count_of self s) }
    {
        let mut counts = self;
        match state {
            State::Ready => counts.ready += 1,
            State::Leased => counts.leased += 1,
            State::Parked => counts.parked += 1,
            State::Ended => counts.ended += 1,
        }
        counts
    }

    /// With one fewer in this state.
    pub(crate) fn without(self, state: State) -> Self
        requires { 0 < count_of self state }
        ensures { (s : State) → count_of result s
            ≡ (if same_state s state then count_of self s - 1 else count_of self s) }
    {
        let mut counts = self;
        match state {
            State::Ready => counts.ready -= 1,
            State::Leased => counts.leased -= 1,
            State::Parked => counts.parked -= 1,
            State::Ended => counts.ended -= 1,
        }
        counts
    }
}
