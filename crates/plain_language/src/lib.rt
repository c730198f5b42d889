//! The language in which a run's surviving steps make sense: expressions, states and steps.
#![tactic(auto)]

mod act;
mod body;
mod change;
mod depth;
mod effects;
mod expr;
mod given;
mod instead;
mod look;
mod moves;
mod numbered;
mod parts;
mod play;
mod pure;
mod redex;
mod state;

pub use depth::{MAX_EXPR_DEPTH, are_flat};
pub use expr::Expr;
pub use look::{ActKind, Look};
pub use play::PlayFault;
pub use state::PlainState;
