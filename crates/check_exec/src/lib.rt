//! What the checks of an elaborated design give for its execution: the premises of the theorem on runs. An accepted
//! design is a well-formed one that no check refuses. This crate has laws alone. It computes nothing.
#![tactic(auto)]

mod laws;

pub use laws::{
    accepted_is_ready, blocks_are_checked, cycles_of_accepted_settle, givens_are_apart, givens_fit,
    links_fit, no_latch_is_left, one_source_each, runs_of_accepted_agree, sample_is_sound,
    slots_are_apart,
};
