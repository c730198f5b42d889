//! Values, journals, containers, rollbacks of these, and floors of counters.

mod flat;
mod floors;
mod graphs;
mod growing;
mod histories;
mod linked;
mod offers;
mod own;
mod prints;
mod reached;
mod rollbacks;
mod saved;
mod slots;
mod values;
mod writes;

use std::fmt::Debug;
use std::process::Abort;

// What was found is what is wanted. Each `assert_eq!` is proved with all of its words, so the tests have one.
fn is<T: PartialEq + Debug>(rt: &impl Abort, found: &T, wanted: &T) {
    assert_eq!(rt; found, wanted);
}
