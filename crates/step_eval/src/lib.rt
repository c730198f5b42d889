//! The evaluator: a thread's text on its way.
#![tactic(auto)]

mod act;
mod answer;
mod ask;
mod control;
mod depth;
mod env;
mod frame;
mod held;
mod machine;
mod node;
mod place;
mod progress;
mod rest;
mod same;
mod settle;
mod site;
mod step;
mod values;

pub use act::Act;
pub use ask::Ask;
pub use control::{CallRefused, Control};
pub use frame::Frame;
pub use progress::{AdvanceRefused, Progress, advance};
pub use rest::Rest;
pub use site::Site;

fn crosses_threads<T: Send + Sync>(_value: &T) {}

fn control_crosses_threads(control: &Control) {
    crosses_threads(control);
}

fn progress_crosses_threads(progress: &Progress) {
    crosses_threads(progress);
}
