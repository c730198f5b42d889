//! The numbers, the values and the faults that every other part speaks of, and how values are compared.
#![tactic(auto)]

mod fault;
mod numbers;
mod print;
mod same;
mod texts;
mod value;

pub use fault::Fault;
pub use numbers::{ChanId, FnId, Generation, NoMemory, RefId, Seq, TextId, ThreadId};
pub use same::{Same, all_same};
pub use texts::Texts;
pub use value::{MAX_DEPTH, MAX_LEAVES, PairFault, PairParts, Shape, Value};

fn crosses_threads<T: Send + Sync>(_value: &T) {}

fn value_crosses_threads(value: &Value) {
    crosses_threads(value);
}
