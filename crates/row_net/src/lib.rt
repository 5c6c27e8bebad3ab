//! The rows of a lowered design: the enables of its statements and the names in scope at them, instance by instance, as nodes.
#![tactic(auto)]

mod block;
mod cells;
mod laws;
mod process;
mod replay;
mod rows;
mod sorted;

pub use laws::unset_exactly;
pub use rows::rows_of;
