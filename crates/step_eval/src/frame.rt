//! Frames: forms that wait for the value of one of their parts.
ghost use Rattle.std.specs.Prelude.{◌≡◌, IfOk};
ghost use Rattle.std.specs.Arc.{arc_value};

use crate::env::Env;
use crate::held::Held;
use crate::place::Place;
use stab_base::NoMemory;
use std::marker::Model;
use std::sync::Arc;

/// A form round the focus. Contracts see where it is, the values of its parts so far, and the values of its variables.
#[derive(Drop)]
pub struct Frame {
    pub(crate) site: Place,
    pub(crate) done: Held,
    pub(crate) env: Arc<Env>,
}

impl Model for Frame {
    ghost use Rattle.std.specs.Arc.{arc_value};
    ghost use Rattle.std.specs.Coded.{codes};
    ghost use Rattle.stab_base.specs.DatumCode.{coded_datum};
    ghost use Rattle.step_eval.specs.FrameView.{FrameView};
    ghost use Rattle.step_eval.specs.contracts.site.Site as place;

    ghost Value = { FrameView };

    ghost coded = { Prim.hlevel (codes, coded_datum, place.the_row.coded) };

    ghost view = { λ f. record { site = f.site; done = f.done; env = arc_value f.env } };
}

impl Frame {
    /// An equal frame: its values are copied, and its environment is shared.
    pub fn copy(&self) -> Result<Frame, NoMemory>
        ensures { IfOk result (λ f. f ≡ self.now) }
    {
        Ok(Frame {
            site: self.site.copy(),
            done: self.done.copy()?,
            env: Arc::try_clone(&self.env)?,
        })
    }
}
