//! The demo's design is accepted for each number of cells that a demo may have, and its stimulus for that design.
//!
//! The design is one text and a parameter, and what it is accepted as depends on the parameter: so the text is read once, by
//! computation, and what follows is by induction over the cells. So a demo is never refused for what the program has in itself, and its
//! requests alone decide its status. This crate has laws, in `specs/`. It computes nothing.
#![tactic(auto)]

mod laws;

pub use laws::{chains_are_accepted, requests_decide};
