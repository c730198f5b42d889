//! Books of short texts, the schedules of drills that lead to them, and the judge of their histories.

mod before;
mod drills;
mod judged;
mod lists;
mod plain;
mod random;
mod runs;
mod schedules;
mod texts;
mod turns;
mod weights;

use std::fmt::Debug;
use std::process::Abort;

// What was found is what is wanted. Each `assert_eq!` is proved with all of its words, so the tests have one.
fn is<T: PartialEq + Debug>(rt: &impl Abort, found: &T, wanted: &T) {
    assert_eq!(rt; found, wanted);
}
