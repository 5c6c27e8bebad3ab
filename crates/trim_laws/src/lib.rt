//! Laws of compiled designs: the world that one tells by its table and the samples of its net is that of its execution. This crate
//! computes nothing.
#![tactic(auto)]

mod laws;

pub use laws::{
    accepted_designs_run, nothing_is_unknown, simulated_are_runs, simulated_traces_fit,
    worlds_are_same,
};
