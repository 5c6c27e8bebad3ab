//! The symbol file of an accepted design: compiled, and its symbol table written.
//!
//! What is written is defined of the design alone: the table of its kept trees, as `kept_table` of `trim_core`.
#![tactic(auto)]

mod write;

pub use io_edge::SinkEnd;
pub use write::write_symbols;
