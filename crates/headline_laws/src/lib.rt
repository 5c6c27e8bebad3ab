//! The law of replay: a replay of what is printed of a design's symbol table and of its run's waves asks for the text that a debugger
//! over the run puts out.
//!
//! This crate has laws, in `specs/`.
#![tactic(auto)]

mod laws;

pub use laws::{debugged_is_replayed, replays_are_debugged};
