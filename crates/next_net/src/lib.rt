//! The next values of the registers of an accepted design, by nodes.
#![tactic(auto)]

mod next;
mod register;
mod writer;

pub use next::nexts_of;
