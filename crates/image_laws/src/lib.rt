//! What an image of a history stands for, which events continue it, and that the history and these events are a history.
#![tactic(auto)]

mod laws;

pub use laws::continued;
