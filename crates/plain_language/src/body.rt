//! The expressions that functions have for their bodies.
ghost use Rattle.std.specs.Prelude.{◌≡◌, ◌<◌, false, None, length, IfOk};
ghost use Rattle.stab_code.specs.Program.{tree_at};
ghost use Rattle.language.specs.Busy.{busy_at, values_in};
ghost use Rattle.language.specs.Expression.{parts_of};
ghost use Rattle.language.specs.Outcome.{called};
ghost use Rattle.language.specs.Program.{body, expr_of, form_of};

use crate::expr::Expr;
use crate::given::Given;
use language::Head;
use stab_base::{Fault, FnId, NoMemory, Value};
use stab_code::{Head as NodeHead, NodeId, Program, Slots, no_other_nodes, nodes_are_trees};
use std::alloc::Global;

/// The form of a node's head over these parts, which a literal and a variable hasn't.
fn form_over(alloc: Global, head: &NodeHead, parts: Vec<Expr>) -> Result<Expr, NoMemory>
    ensures { IfOk result (λ e. e ≡ form_of head.now (parts_of parts.items)) }
{
    let head = match head {
        NodeHead::Unit => return Ok(Expr::value(Value::unit())),
        NodeHead::Truth(b) => return Ok(Expr::value(Value::truth(*b))),
        NodeHead::Int(n) => return Ok(Expr::value(Value::int(*n))),
        NodeHead::Text(t) => return Ok(Expr::value(Value::text(*t))),
        NodeHead::Var(x) => return Ok(Expr::variable(*x)),
        NodeHead::Block(slots) => Head::Block(Slots::from_slice(alloc, slots.all())?),
        NodeHead::If => Head::If,
        NodeHead::Two(op) => Head::Two(*op),
        NodeHead::Not => Head::Not,
        NodeHead::Neg => Head::Neg,
        NodeHead::Pair => Head::Pair,
        NodeHead::Fst => Head::Fst,
        NodeHead::Snd => Head::Snd,
        NodeHead::Call(f) => Head::Call(*f),
        NodeHead::Spawn(f) => Head::Spawn(*f),
        NodeHead::Stable(f) => Head::Stable(*f),
        NodeHead::NewChan(_) => Head::NewChan,
        NodeHead::NewRef => Head::NewRef,
        NodeHead::Get => Head::Get,
        NodeHead::Set => Head::Set,
        NodeHead::Send => Head::Send,
        NodeHead::Recv => Head::Recv,
        NodeHead::Pick => Head::Pick,
        NodeHead::Stabilize => Head::Stabilize,
        NodeHead::Cut => Head::Cut,
        NodeHead::Pin => Head::Pin,
        NodeHead::Print => Head::Print,
        NodeHead::Probe => Head::Probe,
        NodeHead::Attempt => Head::Attempt,
    };
    Ok(Expr::form(head, parts))
}

/// The expression that a node's tree writes. Calls nest as deep as forms do.
fn written(alloc: Global, program: &Program, n: NodeId) -> Result<Expr, NoMemory>
    requires { n.0 < length program.now.nodes }
    ensures { IfOk result (λ e. e ≡ expr_of (tree_at program.now n)) }
{
    nodes_are_trees();
    let Some(node) = program.node(n) else {
        return Ok(Expr::value(Value::unit()));
    };
    let mut parts = Vec::new(alloc);
    for part in node.parts() {
        parts.push(written(alloc, program, *part)?)?;
    }
    form_over(alloc, node.head(), parts)
}

/// The body of a function with these values for its parameters.
pub(crate) fn called(
    alloc: Global,
    program: &Program,
    f: FnId,
    parts: &[Expr],
) -> Result<Expr, NoMemory>
    requires { busy_at false parts.now ≡ None }
    ensures { IfOk result (λ e. e ≡ called (body program.now) f.0 (values_in parts.now)) }
{
    no_other_nodes();
    match program.body(f) {
        Some(n) => written(alloc, program, n)?.put_copy(alloc, Given::All(parts)),
        None => Ok(Expr::fault(Fault::WrongKind)),
    }
}
