//! Terms of a block as nodes of a net: the folded whole tree of a term, where the names of an instance have nodes.
#![tactic(auto)]

mod evaluation;
mod node;
mod operators;
mod pending;

pub use evaluation::evaluate;
