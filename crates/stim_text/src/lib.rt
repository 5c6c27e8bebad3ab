//! Reads a stimulus: a line with the names of a design's inputs, and then a line of values for each cycle.
#![tactic(auto)]

mod fault;
mod fields;
mod lines;
mod read;
mod rows;
mod stim;

pub use fault::StimFault;
pub use read::read_stim;
pub use stim::Stim;
