//! The checks of an elaborated design: names, ports, widths, drivers, latches.
//!
//! What is refused, and in which order, is defined in `check_core`.
#![tactic(auto)]

mod fault;
mod judge;

pub use judge::check;
