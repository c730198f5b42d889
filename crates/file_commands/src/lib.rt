//! The commands on files: `check`, `verify`, `drill`, `types`, `save`, `resume`.
#![tactic(auto)]

mod checking;
mod drilling;
mod judging;
mod resuming;
mod saving;
mod typing;

pub use checking::check_file;
pub use drilling::drill_file;
pub use judging::verify_file;
pub use resuming::resume_file;
pub use saving::{Source, save_file};
pub use typing::types_file;
