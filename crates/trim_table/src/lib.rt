//! Laws: the table of a compiled design keeps every rule of a symbol table, and is the table of its design. This crate computes nothing.
#![tactic(auto)]

mod laws;

pub use laws::{compiled_tables_are_kept, tells_the_sample, trimmed_are_tables};
