//! Where a breakpoint or a watch waits, and what a trace shows there: all that the two have in common, below both.
//!
//! A line, and a path and a text where these are given, stand for slots, an instance, an expression and the places at which is waited for it;
//! or for a fault. What is found so is defined in `machine_core`, over the world that a table and a trace tell; `specs/Sites.antt` has what is
//! looked at in a table instead. What is looked at in a cycle is in `specs/Sampled.antt`.
#![tactic(auto)]

mod fault;
mod sampled;
mod site;
mod trap;

pub use fault::SiteFault;
pub use sampled::{come_to, is_thread, is_wanted, sample_at};
pub use site::{Sited, sited_on};
pub use trap::Trap;
