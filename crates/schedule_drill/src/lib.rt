//! Drills: schedules that are written by hand, played on a book.
#![tactic(auto)]

mod held;
mod laws;
mod leases;
mod play;
mod spelling;
mod whole;

pub use laws::{
    leases_stay_true, one_answer, one_drill, one_end, one_fault, one_late, one_lease, one_made,
    one_step, one_worker,
};
pub use whole::{DrillEnd, drill};
