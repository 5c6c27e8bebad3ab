//! From a lowered design to a compiled one: the net of what is kept, with its symbol table.
#![tactic(auto)]

mod found;
mod naming;
mod roots;
mod slots;
mod whole;

pub use whole::trim;
