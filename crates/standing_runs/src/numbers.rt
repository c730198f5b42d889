//! The numbers in a program's nodes.
ghost use Rattle.std.specs.List.{AllByRecursion};
ghost use Rattle.stab_code.specs.Valid.{IsValid};
ghost use Rattle.standing_runs.specs.Numbers.{HasNumbers, IsSlot, NumbersFit};

use stab_code::{Head, NodeId, Program};

/// The numbers of all nodes are of 32 and of 64 bits, as they lie in memory. It goes through the nodes once.
pub(crate) fn numbers_fit(program: &Program)
    ensures valid { IsValid program.now }
    ensures fit { NumbersFit program.now }
{
    let mut n = 0;
    while let Some(node) = program.node(NodeId(n)) {
        head_fits(node.head());
        n += 1;
    }
}

fn head_fits(head: &Head)
    ensures { HasNumbers head.now }
{
    match head {
        Head::Int(n) => {
            // Read, since that shows that it has 64 bits.
            let _n = *n;
        }
        Head::Var(x) => {
            // Read, since that shows that it has 32 bits.
            let _x = *x;
        }
        Head::Block(slots) => slots_fit(slots.all()),
        _ => {}
    }
}

fn slots_fit(slots: &[Option<u32>])
    ensures { AllByRecursion IsSlot slots.now }
{
    for slot in slots {
        if let Some(x) = *slot {
            // Read, since that shows that it has 32 bits.
            let _x = x;
        }
    }
}
