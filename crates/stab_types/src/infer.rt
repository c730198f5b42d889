//! The types of expressions.
ghost use Rattle.std.specs.Prelude.{◌≡◌, ◌<◌, ℕ, length, IfOk, IfSome, Option, option_and_then, slice_get};
ghost use Rattle.std.specs.List.{All};
ghost use Rattle.stab_code.specs.Heads.{slots_of};
ghost use Rattle.stab_code.specs.Program.{tree_at};
ghost use Rattle.stab_code.specs.Syntax.{named_in};
ghost use Rattle.stab_types.specs.Computed.{type_in};
ghost use Rattle.stab_types.specs.Given.{AreSeenBelow, AreSignatures, IsComputed, seen_of};

use crate::given::{Given, Signature};
use crate::rule::type_by;
use crate::variables::{put_back, see};
use smallvec::SmallVec;
use stab_base::NoMemory;
use stab_code::{Head, NodeId, Program, nodes_are_trees};
use std::alloc::Global;
use type_table::TypeTable;

/// The slot of an item of a block, if it is a let.
fn slot_at(head: &Head, i: usize) -> Option<u32>
    ensures { result ≡ option_and_then (λ (o : Option ℕ). o) (slice_get (slots_of head.now) i) }
{
    match head {
        Head::Block(slots) => *slots.all().get(i)?,
        _ => None,
    }
}

/// The type of the expression of a node, where these variables are seen, or none where it has none. Calls nest as deep as
/// forms do.
pub(crate) fn infer(
    alloc: Global,
    program: &Program,
    signatures: &[Signature],
    types: &mut TypeTable,
    seen: &mut [Option<Given>],
    n: NodeId,
) -> Result<Option<Given>, NoMemory>
    requires there { n.0 < length program.now.nodes }
    requires signatures { AreSignatures types.old signatures.now program.now.functions }
    requires slots { All (λ slot. slot < length seen.old) (named_in (tree_at program.now n)) }
    requires seen { AreSeenBelow (length types.old) seen.old }
    ensures same { IfOk result (λ found. IfSome found (λ _. seen.new ≡ seen.old)) }
    ensures is { IfOk result (λ found. IsComputed types.old types.new found
        (λ all. type_in program.now.functions (seen_of all seen.old) (tree_at program.now n))) }
{
    nodes_are_trees();
    let Some(node) = program.node(n) else {
        unreachable!()
    };
    let mut parts: SmallVec<Given, 4> = SmallVec::new(alloc);
    let mut hidden = Vec::new(alloc);
    for (i, part) in node.parts().iter().enumerate() {
        let Some(given) = infer(alloc, program, signatures, types, seen, *part)? else {
            return Ok(None);
        };
        parts.push(given)?;
        see(seen, &mut hidden, slot_at(node.head(), i), given)?;
    }
    put_back(seen, hidden);
    type_by(types, signatures, seen, node.head(), parts.as_slice())
}
