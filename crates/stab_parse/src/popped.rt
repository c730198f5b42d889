//! What the frame means that a token ends. Each is told from the frame alone, before anything is written.
ghost use Rattle.std.specs.Prelude.{◌≡◌, ℕ, Option, Some, None, option_copied, IfSome, IsNone};
ghost use Rattle.stab_parse.specs.declared.reader.Reader.{Reader};
ghost use Rattle.stab_parse.specs.declared.symbol.Span.{Span as SpanParts};
ghost use Rattle.stab_parse.specs.Closing.{frame_of};
ghost use Rattle.stab_parse.specs.Moves.{Refused, close_brace, close_paren, comma, end_items, in_top, item, open_brace, outcome, owed_in, semicolon};
ghost use Rattle.stab_parse.specs.Seen.{Seen as SeenParts};

use crate::frame::{BlockPlace, Callee, Frame, Seen};
use crate::reader::one_more;
use crate::symbol::{ActWord, Span};
use crate::tree::ItemNames;

/// What a `)` ends.
#[derive(Clone, Copy)]
pub(crate) enum Closing {
    Group(u32),
    Second(u32, u8),
    Args(Callee, u8, usize),
    One(ActWord, u32),
    TwoRight(ActWord, u32, u8),
}

/// A block whose items are read: the depth of its parts so far, its first byte, its items and where it stands.
#[derive(Drop)]
pub(crate) struct Block {
    pub depth: u8,
    pub at: u32,
    pub names: ItemNames,
    pub place: BlockPlace,
}

/// What a `)` ends, if it may stand there.
pub(crate) fn closing_of(top: Option<Frame>) -> Option<Closing>
    ensures some { IfSome result (λ closing. top ≡ Some (frame_of closing)) }
    ensures none { IsNone result → (seen : SeenParts) (r : Reader) → in_top close_paren top seen r ≡ outcome Refused r }
{
    match top? {
        Frame::Group(at) => Some(Closing::Group(at)),
        Frame::Second(at, left) => Some(Closing::Second(at, left)),
        Frame::Args(callee, depth, before) => Some(Closing::Args(callee, depth, before)),
        Frame::One(word, at) => Some(Closing::One(word, at)),
        Frame::TwoRight(word, at, left) => Some(Closing::TwoRight(word, at, left)),
        _ => None,
    }
}

/// The frame of what a comma owes, if it may stand there.
pub(crate) fn behind_comma(top: Option<Frame>, seen: Seen) -> Option<Frame>
    ensures some { IfSome result (λ next. (r : Reader) → in_top comma top seen r ≡ owed_in next r) }
    ensures none { IsNone result → (r : Reader) → in_top comma top seen r ≡ outcome Refused r }
{
    match top? {
        Frame::Group(at) => Some(Frame::Second(at, seen.depth())),
        Frame::Args(callee, depth, before) => {
            Some(Frame::Args(callee, depth.max(seen.depth()), one_more(before)))
        }
        Frame::TwoLeft(word, at) => Some(Frame::TwoRight(word, at, seen.depth())),
        _ => None,
    }
}

/// The block that an item or a `}` ends in.
pub(crate) fn block_of(top: Option<Frame>) -> Option<Block>
    ensures some { IfSome result (λ block. top ≡ Some (Frame.Items block.depth block.at block.names block.place)) }
    ensures item { IsNone result → (name : Option SpanParts) (seen : SeenParts) (r : Reader) → in_top (item name) top seen r ≡ outcome Refused r }
    ensures close { IsNone result → (seen : SeenParts) (r : Reader) → in_top close_brace top seen r ≡ outcome Refused r }
    ensures end { IsNone result → (r : Reader) → end_items top r ≡ outcome Refused r }
{
    match top? {
        Frame::Items(depth, at, names, place) => Some(Block {
            depth,
            at,
            names,
            place,
        }),
        _ => None,
    }
}

/// The name of the let that a `;` ends, if it ends one.
pub(crate) fn let_of(top: Option<&Frame>) -> Option<Span>
    ensures some { IfSome result (λ name. option_copied top.entry ≡ Some (Frame.Let name)) }
    ensures none { IsNone result → (seen : SeenParts) (r : Reader)
        → in_top semicolon (option_copied top.entry) seen r ≡ in_top (item None) (option_copied top.entry) seen r }
{
    match top? {
        Frame::Let(name) => Some(*name),
        _ => None,
    }
}

/// The first byte of the if whose condition a `{` ends, if it ends one.
pub(crate) fn condition_of(top: Option<Frame>) -> Option<u32>
    ensures some { IfSome result (λ at. top ≡ Some (Frame.Condition at)) }
    ensures none { IsNone result → (at : ℕ) (seen : SeenParts) (r : Reader) → in_top (open_brace at) top seen r ≡ outcome Refused r }
{
    match top? {
        Frame::Condition(at) => Some(at),
        _ => None,
    }
}
