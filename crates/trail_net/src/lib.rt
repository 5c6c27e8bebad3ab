//! The trail of an accepted design, from the values of its compiled net.
#![tactic(auto)]

mod write;

pub use trail_out::SinkEnd;
pub use write::{trace_of, write_trail};
