//! Values of the language.
ghost use Rattle.std.specs.Prelude.{◌≡◌, ◌≢◌, ◌≤◌, ◌<◌, ◌↔◌, ◌++◌, OnOk, OnErr, IfOk, IfErr, IsTrue};
ghost use Rattle.stab_base.specs.Datum.{Datum, unit, truth, int, text as text_datum, chan as chan_datum, reference as reference_datum, pair as pair_datum, datum_eq, depth_of, leaves_of};
ghost use Rattle.stab_base.specs.Gain.{GainsPrefix};
ghost use Rattle.stab_base.specs.Limits.{is_within_limits};
ghost use Rattle.stab_base.specs.PairFault.{IsPairFault};
ghost use Rattle.stab_base.specs.Printed.{printed};
ghost use Rattle.stab_base.specs.ShapeView.{datum_of};

use crate::numbers::{ChanId, NoMemory, RefId, TextId};
use crate::print;
use crate::texts::Texts;
use std::alloc::Global;
use std::marker::Model;
use std::sync::Arc;

/// How deep pairs may be nested.
pub const MAX_DEPTH: u32 = 64;

/// How many parts a value may have that aren't pairs.
pub const MAX_LEAVES: u32 = 4096;

/// A value: unit, a truth value, a number, a text, a channel, a reference or a pair of values.
/// Contracts see it as a `Datum`. It is at most `MAX_DEPTH` deep and has at most `MAX_LEAVES` leaves.
/// Copies share their parts, so a copy costs the same however large the value is.
#[cycle(values)]
#[derive(Debug, Drop)]
pub struct Value {
    shape: Shape,
}

/// What a value is made of. A pair has its depth and how many leaves it has beside its parts. Contracts see it as a
/// `Datum`, which has no addresses.
#[cycle(values)]
#[derive(Debug, Drop)]
pub enum Shape {
    Unit,
    Truth(bool),
    Int(i64),
    Text(TextId),
    Chan(ChanId),
    Ref(RefId),
    Pair(u8, u16, Arc<PairParts>),
}

/// The two values of a pair.
#[cycle(values)]
#[derive(Debug, Drop)]
pub struct PairParts {
    pub first: Value,
    pub second: Value,
}

impl Model for Value {
    ghost use Rattle.std.specs.Prelude.{IsTrue};
    ghost use Rattle.stab_base.specs.Datum.{Datum, depth_of};
    ghost use Rattle.stab_base.specs.DatumCode.{coded_datum};
    ghost use Rattle.stab_base.specs.Limits.{is_within_limits};

    ghost Value = { Datum };

    ghost coded = { coded_datum };

    ghost use Rattle.stab_base.specs.ShapeView.{IsMeasured, datum_of};

    ghost view = { λ v. datum_of v.shape };

    ghost invariant = { λ v. IsMeasured v.shape × IsTrue (is_within_limits (datum_of v.shape)) };

    ghost size = { depth_of };

    ghost use Rattle.std.proofs.Common.{arith};

    ghost size_decreases = { λ v h. Prim.grind (arith) };
}

/// Why a pair wasn't made. Both values come back, in their order.
#[derive(Debug, Drop)]
pub enum PairFault {
    /// The pair would be deeper than `MAX_DEPTH` or have more than `MAX_LEAVES` leaves.
    Deep(Value, Value),
    /// The memory that the pair needs isn't there.
    NoMemory(Value, Value),
}

impl Value {
    /// The one value of `unit`, printed `()`.
    pub fn unit() -> Value
        ensures { result ≡ unit }
    {
        Value { shape: Shape::Unit }
    }

    /// A truth value.
    pub fn truth(b: bool) -> Value
        ensures { result ≡ truth b }
    {
        Value {
            shape: Shape::Truth(b),
        }
    }

    /// A number of 64 signed bits.
    pub fn int(n: i64) -> Value
        ensures { result ≡ int n }
    {
        Value {
            shape: Shape::Int(n),
        }
    }

    /// A text of the program, by its number. Its characters stay in the `Texts`.
    pub fn text(t: TextId) -> Value
        ensures { result ≡ text_datum t.0 }
    {
        Value {
            shape: Shape::Text(t),
        }
    }

    /// A channel, by its number.
    pub fn chan(c: ChanId) -> Value
        ensures { result ≡ chan_datum c.0 }
    {
        Value {
            shape: Shape::Chan(c),
        }
    }

    /// A reference, by its number. What it holds isn't part of the value.
    pub fn reference(r: RefId) -> Value
        ensures { result ≡ reference_datum r.0 }
    {
        Value {
            shape: Shape::Ref(r),
        }
    }

    /// What the value is made of, to match on.
    pub fn shape(&self) -> &Shape
        ensures same { datum_of result.now ≡ self.now }
        ensures within { IsTrue (is_within_limits self.now) }
    {
        &self.shape
    }

    /// How deep pairs are nested: 0 for what isn't a pair.
    pub fn depth(&self) -> u32
        ensures exact { result ≡ depth_of self.now }
        ensures limit { result ≤ MAX_DEPTH }
    {
        match &self.shape {
            Shape::Pair(depth, _leaves, _parts) => u32::from(*depth),
            _ => 0,
        }
    }

    /// How many parts the value has that aren't pairs.
    pub fn leaves(&self) -> u32
        ensures exact { result ≡ leaves_of self.now }
        ensures limit { result ≤ MAX_LEAVES }
    {
        match &self.shape {
            Shape::Pair(_depth, leaves, _parts) => u32::from(*leaves),
            _ => 1,
        }
    }

    /// The pair of two values, or both of them back.
    pub fn pair(alloc: Global, a: Value, b: Value) -> Result<Value, PairFault>
        ensures ok { IfOk result (λ p. p ≡ pair_datum a b) }
        ensures within { IfOk result (λ p. IsTrue (is_within_limits p)) }
        ensures fault { IfErr result (IsPairFault a b) }
    {
        let depth = a.depth().max(b.depth()) + 1;
        let leaves = a.leaves() + b.leaves();
        if depth > MAX_DEPTH || leaves > MAX_LEAVES {
            return Err(PairFault::Deep(a, b));
        }
        let parts = PairParts {
            first: a,
            second: b,
        };
        match Arc::new(alloc, parts) {
            Ok(parts) => Ok(Value {
                shape: Shape::Pair(depth as u8, leaves as u16, parts),
            }),
            Err(refused) => {
                let PairParts { first, second } = refused.value;
                Err(PairFault::NoMemory(first, second))
            }
        }
    }

    /// Whether two values are equal.
    pub fn same(&self, other: &Value) -> bool
        ensures equal { IsTrue result ↔ (self.now ≡ other.now) }
        ensures test { result ≡ datum_eq self.now other.now }
    {
        match (&self.shape, &other.shape) {
            (Shape::Unit, Shape::Unit) => true,
            (Shape::Truth(a), Shape::Truth(b)) => a == b,
            (Shape::Int(m), Shape::Int(n)) => m == n,
            (Shape::Text(s), Shape::Text(t)) => s == t,
            (Shape::Chan(b), Shape::Chan(c)) => b == c,
            (Shape::Ref(q), Shape::Ref(r)) => q == r,
            (Shape::Pair(_, _, p), Shape::Pair(_, _, q)) => {
                p.first.same(&q.first) && p.second.same(&q.second)
            }
            _ => false,
        }
    }

    /// The two values that a pair is made of, or else the value itself. Where others share the pair, its parts are
    /// copied, which is refused as in `copy`.
    pub fn split(self) -> Result<Result<(Value, Value), Value>, NoMemory>
        ensures parts { IfOk result (λ r. IfOk r (λ parts. self ≡ pair_datum parts.0 parts.1)) }
        ensures back { IfOk result (λ r. IfErr r (λ v. v ≡ self)) }
        ensures no_pair { IfOk result (λ r. IfErr r (λ v. (a b : Datum) → v ≢ pair_datum a b)) }
        ensures refused { OnErr result (0 < depth_of self) }
    {
        match self.shape {
            Shape::Pair(_depth, _leaves, parts) => match Arc::try_unwrap(parts) {
                Ok(PairParts { first, second }) => Ok(Ok((first, second))),
                Err(parts) => Ok(Ok((parts.first.copy()?, parts.second.copy()?))),
            },
            shape => Ok(Err(Value { shape })),
        }
    }

    /// Appends the value as it is printed; a text that isn't there is printed as nothing. Where memory gives out, some
    /// of it may be there.
    pub fn put_text(&self, texts: &Texts, out: &mut Vec<u8>) -> Result<(), NoMemory>
        ensures ok { OnOk result (out.new.items ≡ out.old.items ++ printed texts.now self.now) }
        ensures err { OnErr result (GainsPrefix out.old.items out.new.items (printed texts.now self.now)) }
    {
        print::print_value(self, texts, out)
    }

    /// An equal value, which shares its parts with this one. This takes no memory; it is refused where as many share the
    /// parts as can be counted, so only for a pair.
    pub fn copy(&self) -> Result<Value, NoMemory>
        ensures same { IfOk result (λ copy. copy ≡ self.now) }
        ensures refused { OnErr result (0 < depth_of self.now) }
    {
        let shape = match &self.shape {
            Shape::Unit => Shape::Unit,
            Shape::Truth(b) => Shape::Truth(*b),
            Shape::Int(n) => Shape::Int(*n),
            Shape::Text(t) => Shape::Text(*t),
            Shape::Chan(c) => Shape::Chan(*c),
            Shape::Ref(r) => Shape::Ref(*r),
            Shape::Pair(depth, leaves, parts) => {
                Shape::Pair(*depth, *leaves, Arc::try_clone(parts)?)
            }
        };
        Ok(Value { shape })
    }
}
