//! Equality as contracts see it.
ghost use Rattle.std.specs.Prelude.{◌≡◌, ◌↔◌, IsTrue};

use crate::value::Value;

/// What lists and containers are compared by: equality of the values that contracts see, which takes no memory. A type that is
/// compared alone has a `same` of its own.
pub trait Same {
    /// Whether two values are equal.
    fn same(&self, other: &Self) -> bool
        ensures { IsTrue result ↔ (self.now ≡ other.now) };
}

impl Same for i64 {
    fn same(&self, other: &i64) -> bool {
        self == other
    }
}

impl Same for Value {
    fn same(&self, other: &Value) -> bool {
        Value::same(self, other)
    }
}

impl Same for Option<u32> {
    fn same(&self, other: &Option<u32>) -> bool {
        self == other
    }
}

/// Whether two lists are equal, item by item.
#[tactic(auto, using(std::proofs::lemmas::List::same_lists))]
pub fn all_same<T: Same>(left: &[T], right: &[T]) -> bool
    ensures { IsTrue result ↔ (left.now ≡ right.now) }
{
    if left.len() != right.len() {
        return false;
    }
    for i in 0..left.len() {
        if !left[i].same(&right[i]) {
            return false;
        }
    }
    true
}
