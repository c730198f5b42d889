//! The nodes of a program, and their values where they have one at once.
ghost use Rattle.std.specs.Prelude.{◌≡◌, ◌<◌, Some, length, slice_get, IfOk};
ghost use Rattle.stab_code.specs.Program.{tree_at};
ghost use Rattle.stab_code.specs.Valid.{IsValid};
ghost use Rattle.step_eval.specs.Entries.{IsBody, IsBodyEntry};
ghost use Rattle.step_eval.specs.Meaning.{node_at};
ghost use Rattle.step_eval.specs.Ready.{IsLeaf};
ghost use Rattle.step_eval.specs.Scoped.{IsScoped};
ghost use Rattle.step_eval.specs.Turns.{Takes};

use crate::env::twin;
use stab_base::{FnId, NoMemory, Value};
use stab_code::{Head, Node, NodeId, Program};

/// The node of a number that is there.
#[inline(always)]
pub(crate) fn node_at(p: &Program, n: NodeId) -> Node<'_>
    requires { n.0 < length p.now.nodes }
    ensures node { result ≡ node_at p.now n }
    ensures valid { IsValid p.now }
{
    p.node(n).unwrap()
}

/// The head of the node of a number that is there.
#[inline(always)]
pub(crate) fn head_at(p: &Program, n: NodeId) -> &Head
    requires { n.0 < length p.now.nodes }
    ensures head { result.now ≡ (node_at p.now n).head }
    ensures valid { IsValid p.now }
{
    p.head(n).unwrap()
}

/// A part among those of a node, by its place.
#[inline(always)]
pub(crate) fn item_of(parts: &[NodeId], k: usize) -> NodeId
    requires { k < length parts.now }
    ensures { slice_get parts.now k ≡ Some result }
{
    parts[k]
}

/// The slot of an item, by its place.
pub(crate) fn slot_of(slots: &[Option<u32>], k: usize) -> Option<u32>
    requires { k < length slots.now }
    ensures { slice_get slots.now k ≡ Some result }
{
    slots[k]
}

/// The value of a slot.
#[inline(always)]
fn value_at(values: &[Value], slot: u32) -> &Value
    requires { slot < length values.now }
    ensures { slice_get values.now slot ≡ Some result.now }
{
    &values[slot as usize]
}

/// The value of a literal or a variable, where the variables have these values.
#[inline(always)]
pub(crate) fn leaf(p: &Program, n: NodeId, values: &[Value]) -> Result<Option<Value>, NoMemory>
    requires there { n.0 < length p.now.nodes }
    requires scoped { IsScoped (length values.now) (tree_at p.now n) }
    ensures value { IfOk result (IsLeaf p.now n values.now) }
    ensures valid { IsValid p.now }
{
    match head_at(p, n) {
        Head::Unit => Ok(Some(Value::unit())),
        Head::Truth(b) => Ok(Some(Value::truth(*b))),
        Head::Int(k) => Ok(Some(Value::int(*k))),
        Head::Text(t) => Ok(Some(Value::text(*t))),
        Head::Var(slot) => Ok(Some(twin(value_at(values, *slot))?)),
        _ => Ok(None),
    }
}

/// The body of a function that takes these arguments.
pub(crate) fn body_at(p: &Program, f: FnId, args: &[Value]) -> NodeId
    requires { Takes p.now f (length args.now) }
    ensures body { IsBody p.now f.0 (length args.now) result }
    ensures valid { IsValid p.now }
{
    p.body(f).unwrap()
}

/// The body of a function that takes these arguments, and its value where it has one at once.
pub(crate) fn entry(
    p: &Program,
    f: FnId,
    args: &[Value],
) -> Result<(NodeId, Option<Value>), NoMemory>
    requires { Takes p.now f (length args.now) }
    ensures { IfOk result (λ r. IsBodyEntry p.now f.0 args.now r.0 r.1) }
{
    let n = body_at(p, f, args);
    let value = leaf(p, n, args)?;
    Ok((n, value))
}
