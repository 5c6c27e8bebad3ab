//! Laws in the words of the program. Of replay: what `replay` is asked for by the files that `symbols` and `sim` print is what `debug`
//! prints. Of waves: what `sim` prints tells the run of the source. And of demos: no words of one are refused for the design that the
//! program has in itself. They stand on what `run` tells of those that end with status 0.
//!
//! This crate has laws, in `specs/`.
#![tactic(auto)]

mod laws;

pub use laws::{debug_is_replayed, demos_are_answered, sim_tells_the_run};
