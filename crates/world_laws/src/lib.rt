//! Laws of the statements of a design by their slots, and of what names have at them in a run. This crate computes nothing.
#![tactic(auto)]

mod laws;

pub use laws::{names_have_values, statements_are_placed};
