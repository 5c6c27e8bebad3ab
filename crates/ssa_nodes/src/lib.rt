//! Nodes of the signals of an accepted design: of what is given in a cycle, the inputs of the top and the registers of all instances
//! (`given`, `place`); of links, and of the ends of blocks (`source`, `process`, `resolve`), each of which looks up what the names of an
//! instance have so far (`held`).
#![tactic(auto)]

mod given;
mod held;
mod parts;
mod place;
mod process;
mod resolve;
mod source;

pub use given::{Given, GivenSource, givens_of};
pub use held::{held_node, leaf_node};
pub use parts::{Parts, names_of};
pub use place::place_givens;
pub use process::{block_of, next_node, process_node, target_node};
pub use resolve::{is_placed, resolve_all};
pub use source::{link_node, no_nodes};
