//! The journal of a run: its events in order, which of its steps were undone, and their weight.
#![tactic(auto)]

mod entry;
mod event;
mod history;
mod readers;

pub use event::{Event, Label, Numbered, Recorded, What};
pub use history::History;
pub use readers::{Own, Survivors};

fn crosses_threads<T: Send + Sync>(_value: &T) {}

fn history_crosses_threads(history: &History) {
    crosses_threads(history);
}
