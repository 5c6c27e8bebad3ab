//! The reader of sources.
#![tactic(auto)]

mod build;
mod exprs;
mod fault;
mod imports;
mod ints;
mod items;
mod laws;
mod members;
mod modules;
mod pieces;
mod source;
mod stmts;
mod tree;
mod words;

pub use exprs::pieces_of;
pub use fault::{ReadFault, TextFault};
pub use laws::{one_answer, one_place, one_spelling, spells_the_sample};
pub use pieces::Piece;
pub use source::read_source;
