//! What a seat of the floor knows.
ghost use Rattle.std.specs.Prelude.{ℕ, Bool, List};
ghost use Rattle.std.specs.Borrow.{ftrue};
ghost use Rattle.std.specs.Coded.{Coded, codes, coded_list};
ghost use Rattle.turn_floor.specs.Start.{Start, start_code};
ghost use Rattle.stab_code.specs.contracts.job.Job as jobs;
ghost use Rattle.stab_journal.specs.declared.event.Event.{Event};
ghost use Rattle.stab_journal.specs.declared.event.Recorded.{Recorded};
ghost use Rattle.stab_journal.specs.contracts.event.Event as event_row;
ghost use Rattle.stab_journal.specs.contracts.event.Recorded as recorded_row;

use std::marker::Model;

/// What a seat knows, in proofs alone. No value of it is made.
pub struct View {
    /// The worker's number, from 1.
    pub ghost worker: { ℕ },
    /// What the floor was given.
    pub ghost start: { Start } by { start_code jobs.the_row.coded event_row.the_row.coded },
    /// The history as far as it was seen.
    pub ghost seen: { List Event } by { coded_list event_row.the_row.coded },
    /// What the seats had seen that were joined, itself one of them.
    pub ghost olds: { List (List Event) } by { coded_list (coded_list event_row.the_row.coded) },
    /// The worker's own events, each with its number.
    pub ghost own: { List Recorded } by { coded_list recorded_row.the_row.coded },
    /// It has the turn.
    pub ghost holds: { Bool },
    /// How many seats were joined into it, itself counted; 0 once it was joined away.
    pub ghost seats: { ℕ },
    /// The last worker's number given out, of the first seat; else 0.
    pub ghost last: { ℕ },
}

impl Model for View {
    ghost also_owns = { λ _. ftrue };
}
