//! The breakpoints of a debugger, and the search for the next position that one of them, or a step, stops at.
//!
//! A search looks at as many positions as one turn of a session. What it looks for is defined in `machine_core`, over the world
//! that a table and a trace tell; `specs/Waiting.antt` has what this crate looks at instead, slot by slot.
//! A breakpoint is armed in two steps, `prepare` and `Schedule::commit`; `Schedule::arm` is both. What it has in common with a watch stands in
//! `site_core`.
#![tactic(auto)]

mod arm;
mod armed;
mod armory;
mod fault;
mod laws;
mod sampled;
mod schedule;
mod search;
mod spans;
mod spot;
mod stops;

pub use arm::prepare;
pub use fault::ArmFault;
pub use laws::sample_is_searched;
pub use schedule::Schedule;
