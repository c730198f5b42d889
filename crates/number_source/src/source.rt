ghost use Rattle.std.specs.Prelude.{◌≡◌, ◌≢◌, ◌++◌, ◌||◌, ℤ, Bool, List, Option, IfSome, IsTrue};
ghost use Rattle.number_source.specs.Came.{final_in, is_end, numbers_in};
ghost use Rattle.number_source.specs.declared.came.Came.{Came as Answer};

use crate::bell::Bell;
use crate::came::Came;
use std::sync::Wait;

/// Where numbers come from.
pub trait NumberSource {
    // The numbers that it has answered so far, in order.
    ghost came: { Self → List ℤ };

    // Whether it has answered that the input has ended.
    ghost ended: { Self → Bool };

    // The answer that it gives from now on, once no number comes any more.
    ghost last: { Self → Option Answer };

    /// The next number, or why there is none. Where `wait` says so it waits until there is an answer other than `Nothing`.
    fn take<R: Wait>(&mut self, rt: &R, wait: bool) -> Came
        ensures came { came self.new ≡ came self.old ++ numbers_in result }
        ensures ended { ended self.new ≡ (ended self.old || is_end result) }
        ensures last { last self.new ≡ final_in result }
        ensures again { IfSome (last self.old) (λ answer. result ≡ answer) }
        ensures waited { IsTrue wait → result ≢ Came.Nothing };

    /// Rings when a number may have come, or the end, and isn't rung by `take`.
    fn bell(&self) -> &Bell;
}
