//! What is reached from the section of a cascade.
ghost use Rattle.std.specs.Prelude.{◌≡◌};

use super::growing::{CASCADE, Growing, MAIN, THREE, TWO};
use super::is;
use comm_graph::{Graph, NodeFor};
use reach_line::{Marks, reach};
use stab_base::Seq;
use std::alloc::Global;
use std::marker::Brand;
use std::sync::ledger::{Blank, Ledger};
use std::test::Fail;
use step_counter::Steps;

// The section is entered again at 33 once it was taken back.
const LATER: [(u64, NodeFor); 8] = [
    (33, NodeFor::Enter(MAIN)),
    (34, NodeFor::Get(THREE, Seq(5))),
    (35, NodeFor::Comm(MAIN, TWO)),
    (37, NodeFor::Get(THREE, Seq(5))),
    (38, NodeFor::Set(TWO)),
    (41, NodeFor::Get(THREE, Seq(38))),
    (43, NodeFor::Comm(THREE, MAIN)),
    (47, NodeFor::Get(MAIN, Seq(38))),
];

// The numbers that are reached from one, in rising order.
fn reached<L: Ledger>(
    alloc: Global,
    graph: &Graph,
    from: u64,
    marks: &mut Marks,
    steps: &mut Steps<L>,
) -> Result<Vec<u64>, Fail> {
    marks.reserve(graph)?;
    if graph.node(Seq(from), steps).is_some() {
        reach(&graph.counted(), Seq(from), marks, steps);
    }
    let mut numbers = Vec::new(alloc);
    for q in marks.nodes() {
        numbers.push(q.0)?;
    }
    numbers.sort()?;
    Ok(numbers)
}

// What is reached in the cascade, and with the same marks once its section was taken back and entered
// again, once it was cut in the middle, and where no node is left.
fn play<L: Ledger>(alloc: Global, blank: Blank) -> Result<[Vec<u64>; 6], Fail>
    requires name { blank.name ≡ L.name }
    requires parts { blank.parts ≡ L.parts }
    requires one { blank.parts ≡ 1 }
{
    let mut steps: Steps<L> = Steps::new(blank);
    let mut marks = Marks::new(alloc);
    let mut growing = Growing::new(alloc);
    growing.put_all(&CASCADE)?;
    let last = reached(alloc, &growing.graph, 28, &mut marks, &mut steps)?;
    let write = reached(alloc, &growing.graph, 23, &mut marks, &mut steps)?;
    let section = reached(alloc, &growing.graph, 17, &mut marks, &mut steps)?;
    for q in [17, 20, 23, 26, 28] {
        growing.strike(q, &mut steps);
    }
    growing.put_all(&LATER)?;
    let again = reached(alloc, &growing.graph, 33, &mut marks, &mut steps)?;
    growing.cut(36);
    let behind = reached(alloc, &growing.graph, 38, &mut marks, &mut steps)?;
    growing.cut(50);
    let nothing = reached(alloc, &growing.graph, 38, &mut marks, &mut steps)?;
    Ok([last, write, section, again, behind, nothing])
}

#[test]
fn a_cascade(rt: HostRuntime) -> Result<(), Fail> {
    let found = play::<Brand>(rt.alloc(), Blank::new(1))?;
    is(&rt, &first_wrong(&found), &None);
    Ok(())
}

const REACHED: [&[u64]; 6] = [
    &[28],
    &[23, 26, 28],
    &[17, 20, 23, 26, 28],
    &[33, 35, 38, 41, 43, 47],
    &[38, 41, 43, 47],
    &[],
];

// The first of the six that is another list.
fn first_wrong(found: &[Vec<u64>; 6]) -> Option<usize> {
    for (i, (numbers, wanted)) in found.iter().zip(REACHED).enumerate() {
        if numbers.as_slice() != wanted {
            return Some(i);
        }
    }
    None
}
