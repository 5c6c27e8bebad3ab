//! Elaborated designs as processes, links and what is given: the design whose execution, settled cycles and runs are defined.
//!
//! This crate has definitions, in `specs/`, and laws of them. It computes nothing.
#![tactic(auto)]

mod laws;

pub use laws::{children_stand, translates_the_sample};
