//! What comes in place of a redex.
ghost use Rattle.std.specs.Prelude.{◌≡◌, Some, None, []};
ghost use Rattle.language.specs.Busy.{redex_with, waiting_parts};
ghost use Rattle.language.specs.Expression.{parts_of};
ghost use Rattle.plain_language.specs.Pures.{changed, left_of_block};
ghost use Rattle.language.specs.Redex.{first_counts_alone};

use crate::expr::Expr;
use language::Head;
use stab_base::Fault;
use stab_code::Slots;

/// What comes in place of a redex.
#[derive(Drop)]
pub(crate) enum Instead {
    Put(Expr),
    /// What is left of the redex, a block, after its first item: it stays where it is, under the slots of the other items.
    Pass(Slots),
}

impl Instead {
    /// What comes where there is no redex.
    pub(crate) fn alone(self) -> Expr
        ensures { result ≡ changed self None }
    {
        match self {
            Instead::Put(r) => r,
            Instead::Pass(_) => Expr::fault(Fault::WrongKind),
        }
    }

    /// What comes in place of the redex with this head and these parts.
    pub(crate) fn at(self, head: &Head, parts: Vec<Expr>) -> Expr
        ensures { result ≡ changed self (Some (redex_with [] head.now parts.items)) }
    {
        match self {
            Instead::Put(r) => r,
            Instead::Pass(slots) => left(slots, waiting(head, parts)),
        }
    }
}

// The parts that wait.
fn waiting(head: &Head, mut parts: Vec<Expr>) -> Vec<Expr>
    ensures { parts_of result.items ≡ waiting_parts (first_counts_alone head.now) parts.items }
{
    if head.first_counts_alone() && !parts.is_empty() {
        parts.remove(0);
    } else {
        parts.clear();
    }
    parts
}

/// What is left of a block with these items' slots and these parts: the last one alone where there is no other.
pub(crate) fn left(slots: Slots, mut parts: Vec<Expr>) -> Expr
    ensures { result ≡ left_of_block slots (parts_of parts.items) }
{
    if slots.all().is_empty() && parts.len() == 1 {
        parts.remove(0)
    } else {
        Expr::form(Head::Block(slots), parts)
    }
}
