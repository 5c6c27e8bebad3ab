//! Execution of the blocks of an elaborated design, the trees that stand for it, and what settles.
//!
//! This crate has definitions, in `specs/`, and laws of them. It computes nothing.
#![tactic(auto)]

mod laws;

pub use laws::{
    blocks_agree, blocks_are_checked, cases_run, checks_tell, computes_the_samples, kept_trees,
    nodes_by_node, order_solves, parts_replace, paths_are_decided, pending_is_total, runs_agree,
    whole_blocks_are_shown, whole_names_are_free,
};
