//! Traces: what was sampled of each node in each cycle, and a cursor that moves over the cycles.
//!
//! What a trace means, and when it fits a table of nodes and slots, is defined in `specs/Samples.antt`.
#![tactic(auto)]

mod fake;
mod laws;
mod scan;
mod trace;

pub use fake::FakeTrace;
pub use laws::fits_the_sample;
pub use scan::{Scanned, Seek, Want, Way};
pub use trace::Trace;
