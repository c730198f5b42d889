//! The program at the front of an image.
ghost use Rattle.std.specs.Prelude.{◌≡◌, ◌<◌, ◌+◌, ◌≤◌, ◌^◌, length};
ghost use Rattle.std.specs.Result.{result_map_both};
ghost use Rattle.image_lines.specs.Opening.{ended, program_in, sized};

use crate::body::TextFault;
use crate::head::length_in;
use image_text::LineFault;
use text_lines::cut;

/// The bytes of the program, and what stands behind the line feed after them.
pub fn program_in(bytes: &[u8]) -> Result<(&[u8], &[u8]), TextFault>
    requires { length bytes.now < 2 ^ 63 }
    ensures { result_map_both (λ x. (x.0.now, x.1.now)) (λ k. k) result ≡ program_in bytes.now }
{
    let Some((header, rest)) = cut(bytes, b'\n') else {
        return Err(TextFault::NoEnd);
    };
    if header != b"stab image 1".as_slice() {
        return Err(TextFault::At(LineFault::BadLine, 0));
    }
    let at = header.len() as u64 + 1;
    let Some((line, rest)) = cut(rest, b'\n') else {
        return Err(TextFault::NoEnd);
    };
    match length_in(line) {
        Ok(count) => sized(count, at + line.len() as u64 + 1, rest),
        Err(fault) => Err(TextFault::At(fault, at)),
    }
}

// So many bytes and what stands behind their line feed, of bytes of which the first has this place.
fn sized(count: u64, at: u64, rest: &[u8]) -> Result<(&[u8], &[u8]), TextFault>
    requires { at + length rest.now < 2 ^ 64 }
    ensures { result_map_both (λ x. (x.0.now, x.1.now)) (λ k. k) result ≡ sized count at rest.now }
{
    if (rest.len() as u64) < count {
        return Err(TextFault::NoEnd);
    }
    let (program, behind) = rest.split_at(count as usize);
    ended(program, at + count, behind)
}

fn ended<'a>(
    program: &'a [u8],
    at: u64,
    behind: &'a [u8],
) -> Result<(&'a [u8], &'a [u8]), TextFault>
    ensures { result_map_both (λ x. (x.0.now, x.1.now)) (λ k. k) result ≡ ended program.now at behind.now }
{
    match behind {
        [] => Err(TextFault::NoEnd),
        [b'\n', rest @ ..] => Ok((program, rest)),
        _ => Err(TextFault::At(LineFault::BadLine, at)),
    }
}
