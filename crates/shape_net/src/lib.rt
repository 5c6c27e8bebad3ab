//! The shape of a lowered design: its variants, its instances, and its statements in the order of their slots, without nodes
//! and rows.
#![tactic(auto)]

mod ordered;
mod parts;
mod scopes;
mod shape;
mod sites;

pub use shape::shape_of;
