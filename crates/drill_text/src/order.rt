//! The order that a line of a script is.
ghost use Rattle.std.specs.Prelude.{◌≡◌};
ghost use Rattle.drill_text.specs.Order.{order_of, verb_named};

use text_lines::{cut, named_in, number_in};

/// The greatest number of a lease, which is that of a worker.
const MAX_LEASE: u64 = 64;

/// What is done with a lease.
#[derive(Clone, Copy, PartialEq, Eq)]
pub enum Verb {
    /// The lease is taken.
    Lease,
    /// Its thread is stepped.
    Step,
    /// It is committed.
    Commit,
}

const VERBS: [(&str, Verb); 3] = [
    ("lease", Verb::Lease),
    ("step", Verb::Step),
    ("commit", Verb::Commit),
];

/// What is done with which lease. Leases are numbered as their workers are, from 1 to 64.
#[derive(Clone, Copy, PartialEq, Eq)]
pub struct Order {
    pub verb: Verb,
    pub lease: u32,
}

/// The order that a text is, if it is one.
pub(crate) fn order_of(text: &[u8]) -> Option<Order>
    ensures { result ≡ order_of text.now }
{
    let (word, number) = cut(text, b' ')?;
    let verb = verb_named(word)?;
    let lease = number_in(1, MAX_LEASE, number)? as u32;
    Some(Order { verb, lease })
}

fn verb_named(word: &[u8]) -> Option<Verb>
    ensures { result ≡ verb_named word.now }
{
    named_in(&VERBS, word)
}
