//! What each design that elaboration gives keeps. This crate has laws alone. It computes nothing.
#![tactic(auto)]

mod laws;

pub use laws::{elaboration_keeps, elaboration_numbers};
