//! An accepted design compiled: the net of what is kept of it, with its symbol table.
#![tactic(auto)]

mod net;

pub use net::{Compiled, compile};
