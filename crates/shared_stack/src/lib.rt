//! A stack that is kept at the same cost however long it is: two that came from one share the items that they have in common.
#![tactic(auto)]

mod stack;

pub use stack::{Link, Popped, Stack};

fn crosses_threads<T: Send + Sync>(_value: &T) {}

fn stack_crosses_threads(stack: &Stack<u64>) {
    crosses_threads(stack);
}
