//! What is written of a net's run is the run when it is replayed: a debugger over the file walks the world that one over the simulator
//! walks.
//! And what seeks over the registers that are kept of a run cost, in a row.
//!
//! This crate has laws, in `specs/`. It computes nothing but that row.
#![tactic(auto)]

mod laws;
mod seeks;

pub use laws::waves_replay;
pub use seeks::seek_over_kept;
