//! Elaboration: the design of a source, from its top.
#![tactic(auto)]

mod cells;
mod designed;
mod finish;
mod given;
mod offsets;
mod sizes;
mod slots;
mod variants;
mod whole;

pub use given::Given;
pub use whole::elaborate;
