//! Values for variables.
ghost use Rattle.std.specs.Prelude.{◌≡◌};
ghost use Rattle.std.specs.Option.{option_copied};
ghost use Rattle.plain_language.specs.Given.{given_to};

use crate::expr::Expr;
use stab_base::Value;

/// The values at hand, by the slots of their variables.
#[derive(Clone, Copy)]
pub(crate) enum Given<'a> {
    Nothing,
    One(u32, &'a Value),
    /// Those of the expressions that are values, by their places.
    All(&'a [Expr]),
}

impl<'a> Given<'a> {
    /// The value for a variable.
    pub(crate) fn get(self, slot: u32) -> Option<&'a Value>
        ensures { option_copied result ≡ given_to self.entry slot }
    {
        match self {
            Given::Nothing => None,
            Given::One(x, v) => { if x == slot { Some(v) } else { None } }
            Given::All(es) => es.get(slot as usize)?.as_value(),
        }
    }
}
