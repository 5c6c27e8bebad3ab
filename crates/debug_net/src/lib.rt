//! The debugger over an accepted design: compiled, simulated, and walked by a session.
#![tactic(auto)]

mod write;

pub use io_edge::SinkEnd;
pub use write::{Script, write_session};
