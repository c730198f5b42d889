//! How deep an expression is.
ghost use Rattle.std.specs.Prelude.{◌≡◌, nat_le};
ghost use Rattle.language.specs.Depth.{are_flat, depth};

use crate::expr::{Expr, Node};
use stab_base::ThreadId;

/// How deep the expression of a thread may be. Whatever goes through an expression calls itself as often as that is deep.
pub const MAX_EXPR_DEPTH: u32 = 1300;

impl Expr {
    /// Whether the expression is no deeper than this. It goes no deeper itself, however deep the expression is.
    pub fn is_within(&self, limit: u32) -> bool
        ensures { result ≡ nat_le (depth self.now) limit }
    {
        match &self.node {
            Node::Value(v) => v.depth() < limit,
            Node::Var(_) | Node::Fault(_) => limit > 0,
            Node::Form(_, parts) => {
                if limit == 0 {
                    return false;
                }
                for part in parts {
                    if !part.is_within(limit - 1) {
                        return false;
                    }
                }
                true
            }
        }
    }
}

/// Whether no thread stands at an expression that is deeper than `MAX_EXPR_DEPTH`.
pub fn are_flat(threads: &[(ThreadId, Expr)]) -> bool
    ensures { result ≡ are_flat threads.now }
{
    threads.iter().all(|t| t.1.is_within(MAX_EXPR_DEPTH))
}
