//! Drivers of the signals of an elaborated design, and the paths through its blocks.
//!
//! Each function looks through one variant, and tells the first fault of its kind in it.
#![tactic(auto)]

mod driven;
mod early;
mod frame;
mod frames;
mod latches;
mod twice;
mod walk;

pub use driven::undriven;
pub use early::read_before_write;
pub use latches::latch;
pub use twice::two_drivers;
