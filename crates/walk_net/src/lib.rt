//! What is kept of a net: the nodes that roots need, with the next values of the registers among them, numbered in the
//! order of a walk.
#![tactic(auto)]

mod copy;
mod ends;
mod keep;
mod registers;
mod roots;
mod task;
mod walk;

pub use keep::{Walked, keep_nodes};
pub use roots::output_roots;
