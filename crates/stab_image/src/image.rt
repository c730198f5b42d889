//! What an image holds.
ghost use Rattle.std.specs.Prelude.{◌≡◌};
ghost use Rattle.std.specs.Arc.{arc_value};

use plain_language::PlainState;
use stab_base::Value;
use stab_code::Program;
use std::marker::Model;
use std::sync::Arc;

/// A run at one of its cuts, as far as it matters for going on from there: the text of the program and the program itself, the
/// script and how much of it is used, the number of the cut, the next numbers, the state, and how often each thread was put back.
#[derive(Drop)]
pub struct Image {
    pub(crate) text: Vec<u8>,
    pub(crate) program: Arc<Program>,
    pub(crate) script: Vec<i64>,
    /// How many probes were made, those of undone steps too.
    pub(crate) used: u64,
    /// The number of the cut.
    pub(crate) cut: u64,
    pub(crate) next_thread: u32,
    pub(crate) next_chan: u32,
    pub(crate) next_ref: u32,
    pub(crate) state: PlainState,
    /// How often each thread that is there was put back, in the order of their numbers.
    pub(crate) generations: Vec<(u32, u64)>,
}

impl Model for Image {
    ghost use Rattle.image_laws.specs.Image.{Image as Images};
    ghost use Rattle.stab_code.specs.contracts.program.Program as whole_program;
    ghost use Rattle.plain_language.specs.contracts.expr.Expr as expr;
    ghost use Rattle.stab_image.specs.ImageCode.{coded_image};

    ghost Value = { Images };

    ghost coded = { coded_image whole_program.the_row.coded expr.the_row.coded };

    ghost use Rattle.stab_image.specs.View.{image_of, IsSound};

    ghost view = { image_of };

    ghost invariant = { IsSound };
}

impl Image {
    /// The program.
    pub fn program(&self) -> &Arc<Program>
        ensures { arc_value result.now ≡ self.now.program }
    {
        &self.program
    }

    /// What was printed up to the cut, in order.
    pub fn printed(&self) -> &[Value]
        ensures { result.now ≡ self.now.state.output }
    {
        self.state.printed()
    }
}
