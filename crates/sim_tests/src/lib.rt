//! Tests of the trace of a simulated net and of the printer of modules, on a register that takes an input in each cycle, and of a
//! trace in memory. What is wanted was worked out by hand.
//!
//! The built program shows what a trail and a module are. Only a call shows a cursor that moves back, a cycle that is not
//! there, and a sink that fails.
#![tactic(auto)]

#[cfg(test)]
mod delay;
#[cfg(test)]
mod fake;
#[cfg(test)]
mod missing;
#[cfg(test)]
mod tests;
