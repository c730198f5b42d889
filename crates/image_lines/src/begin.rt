//! What the lines of a state begin with.
ghost use Rattle.std.specs.Prelude.{◌≡◌};
ghost use Rattle.image_lines.specs.Line.{begin_named};

use text_lines::named_in;

/// The name with which a line begins.
#[derive(Clone, Copy)]
pub(crate) enum Begin {
    Chan,
    Ref,
    Out,
    Thread,
    End,
}

const BEGINS: [(&str, Begin); 5] = [
    ("chan", Begin::Chan),
    ("ref", Begin::Ref),
    ("out", Begin::Out),
    ("thread", Begin::Thread),
    ("end", Begin::End),
];

/// What the name begins, if it is one.
pub(crate) fn begin_named(name: &[u8]) -> Option<Begin>
    ensures { result ≡ begin_named name.now }
{
    named_in(&BEGINS, name)
}
