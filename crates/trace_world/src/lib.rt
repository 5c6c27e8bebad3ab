//! The world that a symbol table and a trace tell: what a debugger walks that knows nothing of a source.
//!
//! This crate has definitions, in `specs/`. It computes nothing.
#![tactic(auto)]

mod laws;

pub use laws::{fitting_traces_sample, same_samples_tell_same, shows_the_sample};
