//! Widths of an elaborated design: those that are no widths, with the literals and slices that do not fit.
//!
//! Each function looks through one variant, and tells the first fault of its kind in it.
#![tactic(auto)]

mod arms;
mod bad;
mod maps;
mod mismatch;
mod sizes;
mod table;
mod widths;

pub use bad::bad_width;
pub use mismatch::width_mismatch;
