//! Tests of hubs that are served in lock step, over links in memory.
//!
//! They stand apart from the crate that they test, since a crate with tests is proved twice: with them and without.
#![tactic(auto)]

#[cfg(test)]
mod rows;
#[cfg(test)]
mod steady;
