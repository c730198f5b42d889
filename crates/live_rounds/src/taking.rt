//! Takes the numbers that came.
ghost use Rattle.std.specs.Prelude.{◌≡◌, ◌≤◌, ◌++◌, ◌∷◌, [], ℤ, List, length, OnOk};
ghost use Rattle.live_rounds.specs.Numbers.{heard};
ghost use Rattle.live_rounds.specs.Taking.{TakenSays};

use crate::halt::Halt;
use number_source::{Came, NumberSource};
use stab_base::NoMemory;
use std::alloc::Global;
use std::sync::Wait;

/// How many numbers are taken between two rounds at most. Those that are there besides are taken later.
const MOST: usize = 1024;

/// What a source had.
#[derive(Drop)]
pub(crate) enum Taken {
    /// These numbers, if any.
    Numbers(Vec<i64>),
    /// The input has ended.
    End,
    Halted(Halt),
}

/// Takes numbers that are there, for which the script has so much room. Where `wait` says so it waits for one or for the end.
pub(crate) fn take_numbers<R: Wait, N: NumberSource>(
    rt: &R,
    alloc: Global,
    source: &mut N,
    wait: bool,
    room: usize,
) -> Taken
    ensures { TakenSays result room (N.came source.old) (heard N.came N.ended N.last source.new) }
{
    source.bell().silence();
    match source.take(rt, wait) {
        Came::Number(number) => take_behind(rt, alloc, source, number, room),
        Came::Nothing => Taken::Numbers(Vec::new(alloc)),
        Came::End => Taken::End,
        Came::Bad(at) => Taken::Halted(Halt::Bad(at)),
        Came::Failed => Taken::Halted(Halt::Failed),
    }
}

// This number, which was taken, and others.
fn take_behind<R: Wait, N: NumberSource>(
    rt: &R,
    alloc: Global,
    source: &mut N,
    number: i64,
    room: usize,
) -> Taken
    ensures { (before : List ℤ) → N.came source.old ≡ before ++ number ∷ []
        → TakenSays result room before (heard N.came N.ended N.last source.new) }
{
    if room == 0 {
        return Taken::Halted(Halt::TooMany);
    }
    let mut numbers = Vec::new(alloc);
    if numbers.push(number).is_err() {
        return Taken::Halted(Halt::NoMemory);
    }
    match take_more(rt, source, &mut numbers, room.min(MOST)) {
        Ok(()) => Taken::Numbers(numbers),
        Err(NoMemory) => Taken::Halted(Halt::NoMemory),
    }
}

// Takes numbers until none is there, or as many were taken. The bell rings where something may be left.
fn take_more<R: Wait, N: NumberSource>(
    rt: &R,
    source: &mut N,
    numbers: &mut Vec<i64>,
    most: usize,
) -> Result<(), NoMemory>
    requires { length numbers.old.items ≤ most }
    ensures within { OnOk result (length numbers.new.items ≤ most) }
    ensures came { (more : List ℤ) × (N.came source.new ≡ N.came source.old ++ more)
        × OnOk result (numbers.new.items ≡ numbers.old.items ++ more) }
{
    while numbers.len() < most {
        match source.take(rt, false) {
            Came::Number(number) => numbers.push(number)?,
            Came::Nothing => return Ok(()),
            _final => break,
        }
    }
    source.bell().ring();
    Ok(())
}
