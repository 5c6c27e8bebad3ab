//! A simulator of a net, cycle by cycle.
//!
//! What the values of a net's nodes are under inputs and registers, and what a clock edge makes of the registers, is
//! defined in `specs/Given.antt`; the state of a simulator in `specs/State.antt`.
#![tactic(auto)]

mod laws;
mod leaves;
mod simulator;
mod step;

pub use laws::{counts_by_hand, values_are_given};
pub use simulator::Simulator;
