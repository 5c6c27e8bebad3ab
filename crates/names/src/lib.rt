//! Names, as bytes: sets of them, and maps from them to values, found by hash. Every crate that finds something by name does so with
//! these two, and tells what it found by `value_of` and `has`.
#![tactic(auto)]

mod map;
mod set;

pub use map::NameMap;
pub use set::NameSet;
