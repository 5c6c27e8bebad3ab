//! What a debugger walks: the executed statements of a design, cycle by cycle, with what each name has before them; and which
//! names have something there, since an expression of them was kept.
//!
//! This crate has definitions, in `specs/`. It computes nothing.
#![tactic(auto)]

mod laws;
mod mode;

pub use laws::{
    kept_are_least, same_worlds_are_seen_alike, same_worlds_same_trails, walks_the_sample,
};
pub use mode::Mode;
