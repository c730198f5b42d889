//! A desk whose numbers come while it is served: a commit whose thread asks for a number that isn't there waits at the desk.
#![tactic(auto)]

mod asking;
mod desk;
mod ending;
mod passing;
mod waiting;

pub use desk::LiveDesk;
pub use ending::Ended;
pub use waiting::Waiting;
