//! What a compiled design is: the net of its kept trees, with the symbol table over it.
//!
//! This crate has definitions, in `specs/`. It computes nothing.
#![tactic(auto)]
