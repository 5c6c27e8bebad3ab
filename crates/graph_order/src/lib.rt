//! An order of a directed graph's vertices, each after all that it has an edge to; or a cycle.
//!
//! Graphs are defined in `specs/Graphs.antt`, orders in `specs/Orders.antt`, cycles in `specs/Cycles.antt`.
#![tactic(auto)]

mod cycle;
mod fault;
mod graph;
mod laws;
mod order;
mod search;

pub use fault::GraphFault;
pub use graph::Graph;
pub use laws::{not_both, order_or_loop, orders_of_the_samples};
pub use order::order_of;
