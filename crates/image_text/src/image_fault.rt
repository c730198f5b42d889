//! Why bytes are no image.
ghost use Rattle.std.specs.Prelude.{◌≡◌};
ghost use Rattle.image_text.specs.declared.image_fault.ImageFault.TheVariants as ImageFault;

use stab_base::NoMemory;

/// Why bytes are the text of no image. A place is that of the first byte of the first line that fails.
#[derive(Clone, Copy, PartialEq, Eq, Debug)]
pub enum ImageFault {
    /// The line has none of the shapes, or something comes behind the program or the last line.
    BadLine(u64),
    /// A number in the line isn't spelled as numbers are, is out of its range, or is of no function or text of the program.
    BadNumber(u64),
    /// The bytes of the program are the text of none.
    BadProgram,
    /// The line doesn't fit the others, or is no part of a state.
    BadState(u64),
    /// The text ends without its last line, within a line, or within the program.
    NoEnd,
    /// The memory for the image isn't there.
    NoMemory,
}

impl From<NoMemory> for ImageFault {
    ghost from_gives = { λ _ e. e ≡ ImageFault.NoMemory };

    fn from(_e: NoMemory) -> ImageFault {
        ImageFault::NoMemory
    }
}
