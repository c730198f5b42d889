//! Expressions in memory.
ghost use Rattle.std.specs.Prelude.{◌≡◌, IfOk, option_map};
ghost use Rattle.std.specs.Option.{option_copied};
ghost use Rattle.language.specs.Busy.{is_value};
ghost use Rattle.language.specs.Forms.{fault_of, form_in, slot_of};
ghost use Rattle.plain_language.specs.Given.{given_to, as_value};
ghost use Rattle.language.specs.Expression.{value, variable, failed, form, parts_of, put, put_parts};

use crate::given::Given;
use language::Head;
use stab_base::{Fault, NoMemory, Value};
use std::alloc::Global;
use std::marker::Model;

/// An expression: a form of the syntax with values in place of variables. Contracts see it as an `Expr` of the
/// definitions.
#[derive(Debug, Drop)]
#[cycle(expression)]
pub struct Expr {
    pub(crate) node: Node,
}

/// What an expression is.
#[derive(Debug, Drop)]
#[cycle(expression)]
pub(crate) enum Node {
    Value(Value),
    Var(u32),
    Fault(Fault),
    Form(Head, Vec<Expr>),
}

impl Model for Expr {
    ghost use Rattle.language.specs.Expression.{Expr as Expression};
    ghost use Rattle.language.specs.ExpressionCode.{coded_expr};
    ghost use Rattle.language.specs.contracts.head.Head as head;
    ghost use Rattle.stab_base.specs.contracts.fault.Fault as fault;
    ghost use Rattle.language.specs.Size.{size_of};

    ghost Value = { Expression };

    ghost coded = { coded_expr fault.the_row.coded head.the_row.coded };

    ghost use Rattle.plain_language.specs.View.{node_expr};

    ghost view = { λ e. node_expr e.node };

    ghost size = { size_of };

    ghost use Rattle.plain_language.specs.Falls.{deep_le-size};

    ghost size_decreases = { λ e h. deep_le-size e.node };
}

impl Expr {
    /// A value.
    pub fn value(v: Value) -> Expr
        ensures { result ≡ value v }
    {
        Expr {
            node: Node::Value(v),
        }
    }

    /// A variable, by its slot.
    pub fn variable(slot: u32) -> Expr
        ensures { result ≡ variable slot }
    {
        Expr {
            node: Node::Var(slot),
        }
    }

    /// What a fault leaves of a whole expression.
    pub fn fault(k: Fault) -> Expr
        ensures { result ≡ failed k }
    {
        Expr {
            node: Node::Fault(k),
        }
    }

    /// A form with its parts, from left to right.
    pub fn form(head: Head, parts: Vec<Expr>) -> Expr
        ensures { result ≡ form head (parts_of parts.items) }
    {
        Expr {
            node: Node::Form(head, parts),
        }
    }

    /// The value that the expression is.
    pub fn as_value(&self) -> Option<&Value>
        ensures { option_copied result ≡ as_value self.now }
    {
        match &self.node {
            Node::Value(v) => Some(v),
            _ => None,
        }
    }

    /// The slot of the variable that the expression is.
    pub fn as_variable(&self) -> Option<u32>
        ensures { result ≡ slot_of self.now }
    {
        match &self.node {
            Node::Var(slot) => Some(*slot),
            _ => None,
        }
    }

    /// The fault that is left of a whole expression.
    pub fn as_fault(&self) -> Option<Fault>
        ensures { result ≡ fault_of self.now }
    {
        match &self.node {
            Node::Fault(k) => Some(*k),
            _ => None,
        }
    }

    /// The head of the form that the expression is, and its parts, from left to right.
    pub fn as_form(&self) -> Option<(&Head, &[Expr])>
        ensures { option_map (λ f. (f.0.now, parts_of f.1.now)) result ≡ form_in self.now }
    {
        match &self.node {
            Node::Form(head, parts) => Some((head, parts.as_slice())),
            _ => None,
        }
    }

    /// Whether the expression is a value.
    pub(crate) fn is_value(&self) -> bool
        ensures { result ≡ is_value self.now }
    {
        matches!(&self.node, Node::Value(_))
    }

    /// An equal expression.
    pub fn copy(&self, alloc: Global) -> Result<Expr, NoMemory>
        ensures { IfOk result (λ copy. copy ≡ self.now) }
    {
        self.put_copy(alloc, Given::Nothing)
    }

    /// An expression with the values at hand in place of its variables.
    #[cycle(copies)]
    pub(crate) fn put_copy(&self, alloc: Global, given: Given<'_>) -> Result<Expr, NoMemory>
        ensures { IfOk result (λ copy. copy ≡ put (given_to given.entry) self.now) }
    {
        match &self.node {
            Node::Value(v) => Ok(Expr::value(v.copy()?)),
            Node::Var(slot) => match given.get(*slot) {
                Some(v) => Ok(Expr::value(v.copy()?)),
                None => Ok(Expr::variable(*slot)),
            },
            Node::Fault(k) => Ok(Expr::fault(*k)),
            Node::Form(head, parts) => {
                let copies = put_copies(alloc, parts, given)?;
                Ok(Expr::form(head.copy(alloc)?, copies))
            }
        }
    }
}

/// Expressions with the values at hand in place of their variables.
#[cycle(copies)]
pub(crate) fn put_copies(
    alloc: Global,
    parts: &[Expr],
    given: Given<'_>,
) -> Result<Vec<Expr>, NoMemory>
    ensures { IfOk result (λ copies. parts_of copies.items ≡ put_parts (given_to given.entry) (parts_of parts.now)) }
{
    let mut copies = Vec::new(alloc);
    for part in parts {
        copies.push(part.put_copy(alloc, given)?)?;
    }
    Ok(copies)
}
