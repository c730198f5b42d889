//! Whether the lines of an image fit together, and what they say.
#![tactic(auto)]

mod bounds;
mod counted;
mod fits;
mod laws;
mod named;
mod order;
mod parts;
mod refined;
mod scope;
mod stands;
mod state;
mod values;

pub use laws::states_read_back;
pub use parts::Parts;
pub use state::state_in;
