//! Nodes, programs and jobs as values.

use super::is;
use stab_code::{Head, Job, MAX_FUEL, MAX_QUANTUM, MAX_SCRIPT, NodeId, Nodes, Program};
use stab_text::read_program;
use std::alloc::Global;
use std::sync::Arc;
use std::test::Fail;

const SUM: &str = "fn main(): unit { print(1 + 2) }";

const CALL: &str = "\
fn plus(n: int): int { pin(); let m = n; { let k = 3; k } + m }
fn main(): unit { let x = 4; print(plus(x)) }
";

// The program of a text.
fn program_of(alloc: Global, text: &str) -> Result<Program, Fail> {
    if text.len() > 1_048_576 {
        return Err(Fail::from("a short text"));
    }
    Ok(read_program(alloc, text.as_bytes())?)
}

// Pushes pairs of a variable and of a pair of it and of what was pushed half as far back.
fn push_all(nodes: &mut Nodes) -> Result<(), Fail> {
    for n in 0..1000 {
        nodes.push(Head::Var(n), &[])?;
        nodes.push(Head::Pair, &[NodeId(2 * n), NodeId(n)])?;
    }
    Ok(())
}

fn is_pair(nodes: &Nodes, node: NodeId, parts: [NodeId; 2]) -> bool {
    match nodes.get(node) {
        Some(pair) => matches!(pair.head(), Head::Pair) && pair.parts() == parts.as_slice(),
        None => false,
    }
}

fn is_variable(nodes: &Nodes, node: NodeId, n: u32) -> bool {
    match nodes.get(node) {
        Some(variable) => {
            matches!(variable.head(), Head::Var(m) if *m == n) && variable.parts().is_empty()
        }
        None => false,
    }
}

#[test]
fn keeps_nodes_in_the_order_of_pushes(rt: HostRuntime) -> Result<(), Fail> {
    let mut nodes = Nodes::new(rt.alloc());
    let none = nodes.get(NodeId(0)).is_none();
    push_all(&mut nodes)?;
    let pair = is_pair(&nodes, NodeId(1999), [NodeId(1998), NodeId(999)]);
    let found = (
        none,
        nodes.len(),
        pair,
        is_variable(&nodes, NodeId(1998), 999),
    );
    is(&rt, &found, &(true, 2000, true, true));
    Ok(())
}

#[test]
fn tells_programs_apart(rt: HostRuntime) -> Result<(), Fail> {
    let table = [
        (SUM, SUM, true),
        (CALL, CALL, true),
        (SUM, CALL, false),
        (CALL, SUM, false),
    ];
    for (left, right, same) in table {
        assert!(rt; are_same(rt.alloc(), left, right)? == same);
    }
    Ok(())
}

// Whether two texts are of the same program.
fn are_same(alloc: Global, left: &str, right: &str) -> Result<bool, Fail> {
    let left = program_of(alloc, left)?;
    let right = program_of(alloc, right)?;
    Ok(left.same(&right))
}

fn job_of(
    alloc: Global,
    text: &str,
    script: &[i64],
    (fuel, quantum): (u64, u32),
) -> Result<Job, Fail> {
    if script.len() > MAX_SCRIPT || fuel < 1 || fuel > MAX_FUEL {
        return Err(Fail::from("a script and fuel within the bounds"));
    }
    if quantum < 1 || quantum > MAX_QUANTUM {
        return Err(Fail::from("a quantum within the bounds"));
    }
    let script = Vec::from_slice(alloc, script)?;
    let program = Arc::new(alloc, program_of(alloc, text)?)?;
    Ok(Job::new(program, script, fuel, quantum))
}

#[test]
fn copies_jobs(rt: HostRuntime) -> Result<(), Fail> {
    let job = job_of(rt.alloc(), SUM, &[-1, 7], (MAX_FUEL, MAX_QUANTUM))?;
    let copied = copied(rt.alloc(), &job)?;
    is(&rt, &copied, &((16_000_000, 10_000), true, true));
    Ok(())
}

// The fuel and the quantum of a copy, and whether its script is -1 and 7 and it is the same job.
fn copied(alloc: Global, job: &Job) -> Result<((u64, u32), bool, bool), Fail> {
    let copy = job.copy(alloc)?;
    let script = copy.script() == [-1, 7].as_slice();
    let same = copy.same(job) && copy.program().same(job.program());
    Ok(((copy.fuel(), copy.quantum()), script, same))
}

// Whether a job is the one of this text, script, fuel and quantum.
fn is_job(
    alloc: Global,
    job: &Job,
    (text, script): (&str, &[i64]),
    bounds: (u64, u32),
) -> Result<bool, Fail> {
    let other = job_of(alloc, text, script, bounds)?;
    Ok(job.same(&other))
}

#[test]
fn tells_jobs_apart(rt: HostRuntime) -> Result<(), Fail> {
    let job = job_of(rt.alloc(), SUM, &[5], (1000, 10))?;
    let wrong = first_wrong(rt.alloc(), &job)?;
    is(&rt, &wrong, &None);
    Ok(())
}

// Texts, scripts, fuels and quanta, and whether the job is theirs.
const JOBS: [((&str, &[i64]), (u64, u32), bool); 6] = [
    ((SUM, &[5]), (1000, 10), true),
    ((SUM, &[]), (1000, 10), false),
    ((SUM, &[6]), (1000, 10), false),
    ((SUM, &[5]), (1001, 10), false),
    ((SUM, &[5]), (1000, 11), false),
    ((CALL, &[5]), (1000, 10), false),
];

// The first row of which a job says something else.
fn first_wrong(alloc: Global, job: &Job) -> Result<Option<usize>, Fail> {
    for (row, (code, bounds, same)) in JOBS.iter().enumerate() {
        if is_job(alloc, job, *code, *bounds)? != *same {
            return Ok(Some(row));
        }
    }
    Ok(None)
}
