//! The symbol file of a design, as it is printed with a line feed behind it, tells the symbol table of the design.
//!
//! This crate has laws, in `specs/`. It computes nothing.
#![tactic(auto)]

mod laws;

pub use laws::table_lines_read_back;
