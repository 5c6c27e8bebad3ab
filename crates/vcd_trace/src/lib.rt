//! A value change dump file as a trace: in each cycle of a clock in one of its scopes, the values of the nodes that a symbol table
//! names.
//!
//! What is sampled is defined in `specs/Over.antt`, and why a file is refused in `specs/Refused.antt`.
#![tactic(auto)]

mod fault;
mod found;
mod groups;
mod laws;
mod marks;
mod signals;
mod trace;
mod value;
mod waves;

pub use fault::BindFault;
pub use laws::{same_named_tell_same, samples_by_hand};
pub use trace::VcdTrace;
