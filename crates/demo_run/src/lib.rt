//! The demo: a session over a chain of cells that is made here, and one line of what it counted.
//!
//! The design and the stimulus are texts of this crate; only the requests are a file. What is counted are the stops that the machine
//! reaches as it answers them, by `specs/Stops.antt`; what a demo asks for is one definition, `specs/Asked.antt`.
#![tactic(auto)]

mod chain;
mod count;
mod counts;
mod judge;
mod laws;
mod line;
mod run;
mod session;
mod tally;
mod walk;
mod write;

pub use judge::Demo;
pub use laws::{stops_are_told, two_ways_are_all};
pub use run::run_demo;
