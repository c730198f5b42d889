//! A program of the language as data: written types, heads, nodes, functions, and the job that a run is given.
#![tactic(auto)]

mod examples;
mod function;
mod head;
mod job;
mod laws;
mod node;
mod node_id;
mod nodes;
mod program;
mod ty;

pub use examples::{counts, depths, order_of_writing, where_lets_are_seen};
pub use function::Function;
pub use head::{Head, MAX_FORM_DEPTH, Op, Slots};
pub use job::{Job, MAX_FUEL, MAX_QUANTUM, MAX_SCRIPT};
pub use laws::{
    forms_fit, functions_fit, heads_fit, limits, no_deep_form, no_other_nodes, nodes_are_trees,
    trees_in_order, walks_are_folds,
};
pub use node::Node;
pub use node_id::NodeId;
pub use nodes::{Nodes, PartLists};
pub use program::Program;
pub use ty::{Ty, TyForm};

fn crosses_threads<T: Send + Sync>(_value: &T) {}

fn job_crosses_threads(program: &Program, job: &Job) {
    crosses_threads(program);
    crosses_threads(job);
}
