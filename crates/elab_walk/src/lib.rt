//! The walk over modules, items and instances.
#![tactic(auto)]

mod asked;
mod asking;
mod gather;
mod item;
mod made;
mod modules;
mod signals;
mod top;
mod values;
mod walker;

pub use top::walk;
