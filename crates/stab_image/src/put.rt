//! Writes an image.
ghost use Rattle.std.specs.Prelude.{◌≡◌, ◌++◌, OnErr, OnOk, IfOk};
ghost use Rattle.stab_image.specs.ImageText.{head_text, lines_of_state, text_of_image};

use crate::image::Image;
use image_text::{
    put_channels, put_end, put_next, put_output, put_probes, put_program, put_references,
    put_threads,
};
use stab_base::NoMemory;
use std::alloc::Global;

/// Writes the text of an image behind what stands there. Where memory is missing, nothing is added. The text is made beside it
/// first, so for that time it stands in memory twice.
pub fn put_image(alloc: Global, image: &Image, out: &mut Vec<u8>) -> Result<(), NoMemory>
    ensures written { OnOk result (out.new.items ≡ out.old.items ++ text_of_image image.now) }
    ensures unchanged { OnErr result (out.new.items ≡ out.old.items) }
{
    let text = text_of(alloc, image)?;
    out.extend_from_slice(&text)?;
    Ok(())
}

fn text_of(alloc: Global, image: &Image) -> Result<Vec<u8>, NoMemory>
    ensures { IfOk result (λ text. text.items ≡ text_of_image image.now) }
{
    let mut out = Vec::new(alloc);
    put_head(&mut out, image)?;
    put_state(&mut out, image)?;
    put_end(&mut out)?;
    Ok(out)
}

// Writes what stands before the lines of the state.
fn put_head(out: &mut Vec<u8>, image: &Image) -> Result<(), NoMemory>
    ensures { OnOk result (out.new.items ≡ out.old.items ++ head_text image.now) }
{
    put_program(out, &image.text)?;
    put_probes(out, &image.script, image.used)?;
    put_next(
        out,
        image.cut,
        image.next_thread,
        image.next_chan,
        image.next_ref,
    )?;
    Ok(())
}

fn put_state(out: &mut Vec<u8>, image: &Image) -> Result<(), NoMemory>
    ensures { OnOk result (out.new.items ≡ out.old.items ++ lines_of_state image.now) }
{
    put_channels(out, &image.state, image.next_chan)?;
    put_references(out, &image.state)?;
    put_output(out, image.state.printed())?;
    put_threads(out, &image.state, &image.generations)
}
