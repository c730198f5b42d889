//! The book: a job, its history, and the state to which the history leads.
#![tactic(auto)]

mod alone;
mod book;
mod commit;
mod counts;
mod create;
mod cut;
mod done;
mod exchange;
mod feed;
mod laws;
mod lease;
mod parts;
mod perform;
mod references;
mod release;
mod rollback;
mod turn;
mod undo;

pub use book::Book;
pub use commit::COMMIT_RESERVE;
pub use counts::Counts;
pub use done::{CommitRefused, Done};
pub use feed::asks_probe;
pub use laws::{
    books_show_a_run, final_steps_stay, no_undone_value_is_shown, pinned_steps_stay,
    refusals_are_due, released_values_stay, undos_take_what_depends,
};
pub use lease::Lease;
pub use turn::Turn;

fn crosses_threads<T: Send + Sync>(_value: &T) {}

fn book_crosses_threads(book: &Book) {
    crosses_threads(book);
}
