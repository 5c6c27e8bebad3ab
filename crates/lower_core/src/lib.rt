//! A lowered design: a net with a row for each statement of each instance.
//!
//! What its nodes stand for is defined in `specs/Lowered.antt`. This crate has the types and these definitions.
#![tactic(auto)]

mod row;

pub use row::{FullRow, Lowered};
pub use world_core::Mode;
