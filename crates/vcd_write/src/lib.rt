//! Waveforms: the run of a net under a stimulus as a value change dump file (IEEE Std 1364-2005, section 18.2).
//!
//! What such a file is, its text and its meaning are defined in `vcd_text`; the file of a run in `specs/Run.antt`.
#![tactic(auto)]

mod cycle;
mod head;
mod laws;
mod value;
mod word;
mod write;

pub use io_edge::SinkEnd;
pub use laws::{tells_the_samples, waves_read_back};
pub use write::write_vcd;
