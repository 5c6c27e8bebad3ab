//! The names of an elaborated design are texts: those of modules, parameters, signals, `let`s, generator variables and instances.
//!
//! A source is ASCII, and each name of a design is a name of the source, a member of its family, or such names with dots between
//! them. So what tells a design by its names, as a symbol file does, is UTF-8. This crate has laws, in `specs/`. It computes nothing.
#![tactic(auto)]

mod laws;

pub use laws::names_are_texts;
