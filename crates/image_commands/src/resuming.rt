//! A run that goes on from an image.
ghost use Rattle.std.specs.Prelude.{◌≡◌, ◌≤◌, IfOk};
ghost use Rattle.stab_code.specs.Limits.{max_fuel, max_quantum};
ghost use Rattle.image_commands.specs.Shown.{IsShown};

use stab_base::NoMemory;
use stab_image::{Image, Resumed, resume};
use state_text::{all_ended, rest_text};
use std::alloc::Global;
use std::sync::Arc;

/// What a run made that went on from an image, and what it shows.
#[derive(Drop)]
pub struct Shown {
    pub resumed: Resumed,
    /// Whether each thread ended without a fault.
    pub all_ended: bool,
    /// What the run shows behind the lines of what was printed up to the cut.
    pub text: Vec<u8>,
}

/// Goes on from an image until no thread can step or the fuel is used up.
pub fn shown_by(alloc: Global, image: Image, fuel: u64, quantum: u32) -> Result<Shown, NoMemory>
    requires fuel { fuel ≤ max_fuel }
    requires some_quantum { 1 ≤ quantum }
    requires quantum { quantum ≤ max_quantum }
    ensures { IfOk result (IsShown image fuel quantum) }
{
    let program = Arc::try_clone(image.program())?;
    let before = image.printed().len();
    let resumed = resume(alloc, image, fuel, quantum)?;
    let text = rest_text(alloc, program.texts(), &resumed.state, before)?;
    let all_ended = all_ended(&resumed.state);
    Ok(Shown {
        resumed,
        all_ended,
        text,
    })
}
