//! The waves of an accepted design's run, as a value change dump file: its compiled net, simulated.
//!
//! What is written is defined of the net of the trees that are kept, as `kept_net` of `trim_core`.
#![tactic(auto)]

mod laws;
mod write;

pub use io_edge::SinkEnd;
pub use laws::{compiled_waves_are_kept, waves_tell_runs};
pub use write::write_waves;
