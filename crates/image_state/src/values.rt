//! What may occur in a value.
ghost use Rattle.std.specs.Prelude.{◌≡◌};
ghost use Rattle.image_state.specs.Held.{known_of};
ghost use Rattle.image_state.specs.Values.{has_texts, is_known};

use crate::bounds::Bounds;
use stab_base::{PairParts, Shape, Value};

impl Bounds<'_> {
    /// Whether each channel and each reference in a value is known.
    pub(crate) fn knows(&self, v: &Value) -> bool
        ensures { result ≡ is_known (known_of self.now) v.now }
    {
        match v.shape() {
            Shape::Chan(c) => self.named.channels.contains(&c.0),
            Shape::Ref(r) => self.named.references.contains(&r.0),
            Shape::Pair(_depth, _leaves, parts) => {
                let parts: &PairParts = parts;
                self.knows(&parts.first) && self.knows(&parts.second)
            }
            _ => true,
        }
    }
}

/// Whether each number of a text in a value is below this one.
pub(crate) fn has_texts(count: usize, v: &Value) -> bool
    ensures { result ≡ has_texts count v.now }
{
    match v.shape() {
        Shape::Text(t) => (t.0 as usize) < count,
        Shape::Pair(_depth, _leaves, parts) => {
            let parts: &PairParts = parts;
            has_texts(count, &parts.first) && has_texts(count, &parts.second)
        }
        _ => true,
    }
}
