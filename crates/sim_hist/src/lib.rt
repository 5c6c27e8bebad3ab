//! The trace of a net under a stimulus, by simulation.
//!
//! What each node has in each cycle is defined in `specs/Run.antt`.
#![tactic(auto)]

mod columns;
mod history;
mod laws;
mod settle;
mod steps;
mod trace;

pub use laws::{samples_have_widths, traces_by_hand};
pub use steps::Steps;
pub use trace::SimTrace;
