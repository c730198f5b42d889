//! What is seen of variables, in a list by their slots. A let writes it, and at the end of its block it is put back.
ghost use Rattle.std.specs.Prelude.{◌≡◌, ◌<◌, ◌≤◌, ◌++◌, List, length, IfOk, OnOk};
ghost use Rattle.std.specs.List.{All};
ghost use Rattle.std.specs.Option.{ForSome};
ghost use Rattle.stab_code.specs.Written.{Written};
ghost use Rattle.stab_types.specs.declared.variables.Hidden.{Hidden as HiddenParts};
ghost use Rattle.stab_types.specs.Given.{AreSeenBelow, IsComputed, hidden_by, parameters_in, put_back, seen_in, seen_of, with_let};

use crate::given::Given;
use stab_base::NoMemory;
use std::alloc::Global;
use type_table::TypeId;

/// What was seen in a slot before a let took it.
#[derive(Clone, Copy)]
pub(crate) struct Hidden {
    pub slot: u32,
    pub given: Option<Given>,
}

/// What is seen where a function's body begins: its parameters.
pub(crate) fn parameters(
    alloc: Global,
    takes: &[TypeId],
    slots: u32,
) -> Result<Vec<Option<Given>>, NoMemory>
    requires { length takes.now ≤ slots }
    ensures { IfOk result (λ seen. seen.items ≡ parameters_in slots takes.now) }
{
    let mut seen = Vec::with_capacity(alloc, slots as usize)?;
    for n in takes {
        seen.push(Some(Given::Of(*n)))?;
    }
    seen.resize(slots as usize, None)?;
    Ok(seen)
}

/// The type of a variable.
pub(crate) fn variable(seen: &[Option<Given>], slot: u32) -> Option<Given>
    ensures value { result ≡ seen_in seen.now slot }
    ensures is { (types : List Written) → AreSeenBelow (length types) seen.now → IsComputed types types result (λ all. seen_of all seen.now slot) }
{
    match seen.get(slot as usize) {
        Some(given) => *given,
        None => None,
    }
}

/// Lets the variable of an item be seen, if the item is a let, and keeps what it hides.
pub(crate) fn see(
    seen: &mut [Option<Given>],
    hidden: &mut Vec<Hidden>,
    slot: Option<u32>,
    given: Given,
) -> Result<(), NoMemory>
    requires { ForSome slot (λ x. x < length seen.old) }
    ensures seen { OnOk result (seen.new ≡ with_let slot given seen.old) }
    ensures hidden { OnOk result (hidden.new.items ≡ hidden.old.items ++ hidden_by slot seen.old) }
{
    if let Some(slot) = slot {
        let given_before = variable(seen, slot);
        hidden.push(Hidden {
            slot,
            given: given_before,
        })?;
        seen[slot as usize] = Some(given);
    }
    Ok(())
}

/// Puts back what lets have hidden, the last one first.
pub(crate) fn put_back(seen: &mut [Option<Given>], mut hidden: Vec<Hidden>)
    requires { All (λ (h : HiddenParts). h.slot < length seen.old) hidden.items }
    ensures { seen.new ≡ put_back seen.old hidden.items }
{
    while let Some(last) = hidden.pop() {
        seen[last.slot as usize] = last.given;
    }
}
