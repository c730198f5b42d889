//! The places of the parts of each form.
ghost use Rattle.std.specs.Prelude.{◌≡◌, ◌<◌, ◌^◌, [], length, IfOk, IfErr};
ghost use Rattle.scope_check.specs.Places.{part_lists as parts_of_each};

use crate::fault::ScopeFault;
use stab_code::{NodeId, PartLists};
use stab_parse::FormNode;
use std::alloc::Global;

/// The parts of the forms of a list, in which each form comes directly after its parts, as numbers in that list.
pub(crate) fn part_lists(alloc: Global, forms: &[FormNode]) -> Result<PartLists, ScopeFault>
    requires { length forms.now < 2 ^ 32 }
    ensures lists { IfOk result (λ lists. lists ≡ parts_of_each 0 [] forms.now) }
    ensures fault { IfErr result (λ fault. fault ≡ ScopeFault.NoMemory) }
{
    let mut lists = PartLists::with_capacity(alloc, forms.len(), forms.len())?;
    let mut whole: Vec<NodeId> = Vec::new(alloc);
    for (i, form) in forms.iter().enumerate() {
        let first = whole.len().saturating_sub(form.parts);
        lists.push(&whole[first..])?;
        whole.truncate(first);
        whole.push(NodeId(i as u32))?;
    }
    Ok(lists)
}
