//! The rule of the floor's table, and its kinds of step.
use crate::held::Held;
use crate::kept::Kept;
use crate::view::View;
use atomic_table::{Join, Play, Split, TableRule};
use std::marker::PhantomData;
use std::snapshot::Snapshot;
use std::sync::ledger::Ledger;

/// What the table is told once: the state as it was given, and how many workers there are.
#[derive(Drop)]
pub struct About<K> {
    pub(crate) state: Snapshot<K>,
    pub(crate) workers: u32,
}

/// The rule. Its clauses are those of `Turned`.
pub struct Turns<K, C, S> {
    marker: PhantomData<(K, C, S)>,
}

impl<K: Kept, C: Ledger, S: Ledger> TableRule<Held<K, C, S>, View, About<K>> for Turns<K, C, S> {
    ghost use Rattle.turn_floor.specs.Keeps.{Keeps, events_in};
    ghost use Rattle.turn_floor.specs.Start.{start_of};
    ghost use Rattle.turn_floor.specs.Turn.{Turned, first_view};

    ghost holds = { λ key. Turned
        (Keeps K.job_of K.commits_of K.stale_of) (events_in K.events_of)
        (start_of (K.job_of key.state.value) (K.events_of key.state.value) (K.commits_of key.state.value) (K.stale_of key.state.value) key.workers) };

    ghost first = { λ key. first_view (start_of (K.job_of key.state.value) (K.events_of key.state.value) (K.commits_of key.state.value) (K.stale_of key.state.value) key.workers) };
}

/// One compare_exchange of the turn word from 0 to 1, which takes the turn or misses it.
pub struct Take<K, C, S> {
    marker: PhantomData<(K, C, S)>,
}

impl<K: Kept, C: Ledger, S: Ledger> Play<Held<K, C, S>, View> for Take<K, C, S> {
    ghost use Rattle.turn_floor.specs.Keeps.{Keeps, events_in};
    ghost use Rattle.turn_floor.specs.Plays.{taken};

    ghost then = { taken
        (Keeps K.job_of K.commits_of K.stale_of) (events_in K.events_of) };
}

/// A store of the history's length in the front word, by the holder.
pub struct Show<K, C, S> {
    marker: PhantomData<(K, C, S)>,
}

impl<K: Kept, C: Ledger, S: Ledger> Play<Held<K, C, S>, View> for Show<K, C, S> {
    ghost use Rattle.turn_floor.specs.Keeps.{Keeps, events_in};
    ghost use Rattle.turn_floor.specs.Plays.{shown};

    ghost then = { shown
        (Keeps K.job_of K.commits_of K.stale_of) (events_in K.events_of) };
}

/// A store of 0 in the turn word, by the holder.
pub struct Give;

impl<T> Play<T, View> for Give {
    ghost use Rattle.turn_floor.specs.Plays.{given};

    ghost then = { given };
}

/// A new seat gets the next worker's number.
pub struct Deal;

impl Split<View> for Deal {
    ghost use Rattle.turn_floor.specs.Plays.{dealer, dealt};

    ghost left = { dealer };

    ghost right = { dealt };
}

/// A seat takes another in.
pub struct Gather;

impl Join<View> for Gather {
    ghost use Rattle.turn_floor.specs.Plays.{both, spent};

    ghost both = { both };

    ghost spent = { spent };
}
