//! The program's one call: it takes the words, the files, a source of numbers and a sink, and returns a report.
#![tactic(auto)]

mod laws;
mod milling;
mod program;
mod running;
mod serving;
mod top;
mod watching;

pub use laws::{
    bad_images_are_refused, bad_lines_stop_drills, bad_probes_are_refused, bad_probes_stop_drills,
    bad_probes_stop_runs, bad_probes_stop_saves, bad_texts_are_refused, bad_traces_are_refused,
    bad_traces_stop_saves, books_are_of_the_language, cuts_are_saved, drills_are_determined,
    good_programs_are_served, good_programs_are_traced, good_programs_are_watched,
    good_programs_check, good_programs_run, images_go_on, mills_run, runs_are_of_the_language,
    runs_by_one_worker_are_drills, runs_have_one_history, scripts_are_drilled,
    served_probes_get_what_came, served_runs_are_of_the_language, traces_are_judged,
    traces_of_runs_pass, typed_files_never_go_wrong, types_are_told, undos_and_output,
    watched_runs_are_of_the_language,
};
pub use program::command;
pub use top::stab;
pub use worker_lease::Gate;
