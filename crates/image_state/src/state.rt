//! The state at the end of an image.
ghost use Rattle.std.specs.Prelude.{◌≡◌, ◌+◌, ◌<◌, ◌^◌, length, IfOk};
ghost use Rattle.std.specs.Result.{result_map_both};
ghost use Rattle.image_state.specs.Held.{held_parts};
ghost use Rattle.image_state.specs.Sound.{AreSound};
ghost use Rattle.image_state.specs.State.{state_in};

use crate::bounds::Bounds;
use crate::named::Named;
use crate::parts::Parts;
use crate::refined::refined_at;
use image_lines::{Next, TextFault, body_in};
use stab_base::NoMemory;
use stab_code::Program;
use std::alloc::Global;

/// What the lines of a state say, of a program and with these next numbers, or the first fault: of bytes of which the first has
/// this place.
pub fn state_in(
    alloc: Global,
    program: &Program,
    next: Next,
    start: u64,
    bytes: &[u8],
) -> Result<Result<Parts, TextFault>, NoMemory>
    requires { start + length bytes.now < 2 ^ 63 }
    ensures parts { IfOk result (λ r. result_map_both held_parts (λ k. k) r ≡ state_in program.now next start bytes.now) }
    ensures sound { IfOk result (λ r. IfOk r (λ parts. AreSound next (held_parts parts))) }
{
    let body = body_in(alloc, start, bytes)?;
    let named = Named::of(alloc, &body.lines)?;
    let bounds = Bounds {
        program,
        next,
        named: &named,
    };
    if let Some(fault) = bounds.first_fault(alloc, &body.lines)? {
        return Ok(Err(fault));
    }
    match body.fault {
        Some(fault) => Ok(Err(refined_at(alloc, program, start, bytes, fault)?)),
        None => Ok(Ok(Parts::of(alloc, body.lines)?)),
    }
}
