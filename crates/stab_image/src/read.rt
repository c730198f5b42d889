//! Reads an image.
ghost use Rattle.std.specs.Prelude.{◌≡◌, ◌+◌, ◌<◌, ◌≤◌, ◌^◌, ◌⊎◌, Ok, Err, IfOk, IfErr, MatchResult, length};
ghost use Rattle.stab_text.specs.Text.{IsTextOf};
ghost use Rattle.image_laws.specs.Image.{Image as Images};
ghost use Rattle.image_lines.specs.Counts.{counts_of};
ghost use Rattle.image_lines.specs.CountsText.{AreCounts};
ghost use Rattle.image_lines.specs.HeadText.{IsLength};
ghost use Rattle.image_state.specs.Held.{held_parts};
ghost use Rattle.image_state.specs.Sound.{AreSound};
ghost use Rattle.image_text.specs.declared.image_fault.ImageFault.TheVariants.{NoMemory as NoMemoryLeft};
ghost use Rattle.stab_image.specs.Read.{IsRead, IsReadBehind, counts_read, fault_of, image_with, state_read};
ghost use Rattle.stab_image.specs.Written.{IsImageText};

use crate::image::Image;
use image_lines::{Counts, TextFault, counts_in, program_in};
use image_state::{Parts, state_in};
use image_text::{ImageFault, LineFault};
use plain_language::PlainState;
use stab_base::NoMemory;
use stab_code::Program;
use stab_text::read_program;
use std::alloc::Global;
use std::sync::Arc;

/// The image of which the bytes are the text, or the first fault. The first line that fails is the fault, tested for its shape, then
/// for its numbers, then for whether it fits the others. A reference may name one whose line stands further down. No call goes
/// deeper than an expression may be, which is 1,300.
pub fn read_image(alloc: Global, bytes: &[u8]) -> Result<Image, ImageFault>
    requires { length bytes.now < 2 ^ 63 }
    ensures image { IfOk result (IsImageText bytes.now) }
    ensures whole { (i : Images) → IsImageText bytes.now i → MatchResult result (λ j. j ≡ i) (λ k. k ≡ NoMemoryLeft) }
    ensures fault { IfErr result (λ k. (k ≡ NoMemoryLeft) ⊎ IsRead bytes.now (Err k)) }
{
    read(alloc, bytes)
}

// As the definitions read.
fn read(alloc: Global, bytes: &[u8]) -> Result<Image, ImageFault>
    requires { length bytes.now < 2 ^ 63 }
    ensures { MatchResult result (λ i. IsRead bytes.now (Ok i)) (λ k. (k ≡ NoMemoryLeft) ⊎ IsRead bytes.now (Err k)) }
{
    match program_in(bytes) {
        Ok((text, rest)) => read_behind(alloc, text, (bytes.len() - rest.len()) as u64, rest),
        Err(fault) => Err(fault_of(fault)),
    }
}

fn fault_of(fault: TextFault) -> ImageFault
    ensures { result ≡ fault_of fault }
{
    match fault {
        TextFault::At(LineFault::BadLine, at) => ImageFault::BadLine(at),
        TextFault::At(LineFault::BadNumber, at) => ImageFault::BadNumber(at),
        TextFault::At(LineFault::BadState, at) => ImageFault::BadState(at),
        TextFault::NoEnd => ImageFault::NoEnd,
    }
}

// The text of the program, and what stands behind it, of which the first byte has this place.
fn read_behind(alloc: Global, text: &[u8], at: u64, rest: &[u8]) -> Result<Image, ImageFault>
    requires short { IsLength (length text.now) }
    requires place { at + length rest.now < 2 ^ 63 }
    ensures { MatchResult result (λ i. IsReadBehind text.now at rest.now (Ok i)) (λ k. (k ≡ NoMemoryLeft) ⊎ IsReadBehind text.now at rest.now (Err k)) }
{
    match read_program(alloc, text) {
        Ok(program) => counts_read(alloc, text, program, at, rest)?,
        Err(fault) => {
            if fault.is_no_memory() {
                Err(ImageFault::NoMemory)
            } else {
                Err(ImageFault::BadProgram)
            }
        }
    }
}

fn counts_read(
    alloc: Global,
    text: &[u8],
    program: Program,
    at: u64,
    rest: &[u8],
) -> Result<Result<Image, ImageFault>, NoMemory>
    requires text { IsTextOf text.now program }
    requires short { IsLength (length text.now) }
    requires place { at + length rest.now < 2 ^ 63 }
    ensures { IfOk result (λ r. r ≡ counts_read text.now program at rest.now) }
{
    match counts_in(alloc, at, rest)? {
        Ok(counts) => state_read(alloc, text, program, counts),
        Err(fault) => Ok(Err(fault_of(fault))),
    }
}

fn state_read(
    alloc: Global,
    text: &[u8],
    program: Program,
    counts: Counts<'_>,
) -> Result<Result<Image, ImageFault>, NoMemory>
    requires text { IsTextOf text.now program }
    requires short { IsLength (length text.now) }
    requires counts { AreCounts (counts_of counts) }
    requires place { counts.at + length counts.rest.now < 2 ^ 63 }
    ensures { IfOk result (λ r. r ≡ state_read text.now program (counts_of counts.entry)) }
{
    match state_in(alloc, &program, counts.next, counts.at, counts.rest)? {
        Ok(parts) => Ok(Ok(image_with(alloc, text, program, counts, parts)?)),
        Err(fault) => Ok(Err(fault_of(fault))),
    }
}

fn image_with(
    alloc: Global,
    text: &[u8],
    program: Program,
    counts: Counts<'_>,
    parts: Parts,
) -> Result<Image, NoMemory>
    requires text { IsTextOf text.now program }
    requires short { IsLength (length text.now) }
    requires counts { AreCounts (counts_of counts) }
    requires sound { AreSound counts.next (held_parts parts) }
    ensures { IfOk result (λ i. i ≡ image_with text.now program (counts_of counts.entry) (held_parts parts)) }
{
    let program = Arc::new(alloc, program)?;
    let state = PlainState::from_parts(
        alloc,
        &program,
        parts.threads,
        parts.channels,
        parts.references,
        parts.output,
    )?;
    Ok(Image {
        text: Vec::from_slice(alloc, text)?,
        program,
        script: counts.script,
        used: counts.used,
        cut: counts.next.cut,
        next_thread: counts.next.thread as u32,
        next_chan: counts.next.chan as u32,
        next_ref: counts.next.reference as u32,
        state,
        generations: parts.generations,
    })
}
