//! Where the redex of an expression is.
ghost use Rattle.std.specs.Prelude.{◌≡◌, ◌<◌, ℕ, Some, None, length, not, option_map, slice_index_or, IsSome, MatchOption};
ghost use Rattle.std.specs.List.{position};
ghost use Rattle.language.specs.Busy.{is_value, busy_at, IsRedexOf, mark_or, passes};
ghost use Rattle.language.specs.Expression.{form, parts_of};
ghost use Rattle.language.specs.Redex.{first_counts_alone, rebuild, redex};
ghost use Rattle.plain_language.specs.Pures.{changed};

use crate::expr::{Expr, Node};
use crate::instead::Instead;
use language::Head;
use stab_base::{Fault, Seq};
use std::mem;

fn first_busy(parts: &[Expr]) -> Option<usize>
    ensures { result ≡ position (λ e. not (is_value e)) parts.now }
{
    parts.iter().position(|part| !part.is_value())
}

/// The place of the first part that isn't a value and has to be one before a form with this head steps.
pub(crate) fn busy_part(head: &Head, parts: &[Expr]) -> Option<usize>
    ensures { result ≡ busy_at (first_counts_alone head.now) parts.now }
{
    if head.first_counts_alone() {
        match parts.first() {
            Some(part) if !part.is_value() => Some(0),
            _ => None,
        }
    } else {
        first_busy(parts)
    }
}

impl Expr {
    /// The head and the parts of the redex, if there is one.
    pub fn redex(&self) -> Option<(&Head, &[Expr])>
        ensures { MatchOption result (redex self.now ≡ None) (λ r. IsRedexOf self.now r.0.now r.1.now) }
    {
        match &self.node {
            Node::Form(head, parts) => match busy_part(head, parts) {
                Some(i) => parts[i].redex(),
                None => Some((head, parts.as_slice())),
            },
            _ => None,
        }
    }

    /// Whether more than this many forms are round the redex, if there is one.
    pub(crate) fn passes(&self, limit: usize) -> Option<bool>
        ensures { result ≡ option_map (passes limit) (redex self.now) }
    {
        match &self.node {
            Node::Form(head, parts) => match busy_part(head, parts) {
                Some(i) => {
                    let inside = parts[i].passes(limit.saturating_sub(1))?;
                    Some(limit == 0 || inside)
                }
                None => Some(false),
            },
            _ => None,
        }
    }

    /// The number of the innermost section round the redex, if there is one, and else of the one outside.
    pub(crate) fn mark_or(&self, outer: Option<Seq>) -> Option<Seq>
        ensures { option_map (λ m. m.0) result ≡ mark_or (option_map (λ m. m.0) outer) (redex self.now) }
    {
        match &self.node {
            Node::Form(head, parts) => match busy_part(head, parts) {
                Some(i) => parts[i].mark_or(head.section_or(outer)),
                None => outer,
            },
            _ => None,
        }
    }

    /// The expression with something in place of its redex.
    #[cycle(rebuilt)]
    pub(crate) fn rebuilt(self, instead: Instead) -> Expr
        requires { IsSome (redex self) }
        ensures { result ≡ rebuild self (changed instead (redex self)) }
    {
        match self.node {
            Node::Form(head, parts) => rebuilt_form(head, parts, instead),
            _ => instead.alone(),
        }
    }
}

#[cycle(rebuilt)]
fn rebuilt_form(head: Head, mut parts: Vec<Expr>, instead: Instead) -> Expr
    requires { IsSome (redex (form head (parts_of parts.items))) }
    ensures { let e = form head (parts_of parts.items) in result ≡ rebuild e (changed instead (redex e)) }
{
    match busy_part(&head, &parts) {
        Some(i) => {
            let part = mem::replace(&mut parts[i], Expr::fault(Fault::WrongKind));
            parts[i] = part.rebuilt(instead);
            Expr::form(head, parts)
        }
        None => instead.at(&head, parts),
    }
}
