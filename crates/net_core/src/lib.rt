//! Nets of numbered nodes, and the builder that makes them: operators are folded as they are applied, and equal trees
//! have one node.
//!
//! The trees that nodes stand for, and what folding is, are defined in the crate `tree_core`.
#![tactic(auto)]

mod builder;
mod entry;
mod laws;
mod net;
mod nexts;
mod node;
mod outcome;

pub use builder::NetBuilder;
pub use laws::one_solution;
pub use net::Net;
pub use nexts::nexts_by_number;
pub use node::Node;
