//! What elaboration computes with: counts with their limits, whole numbers, and the names that have one.
#![tactic(auto)]

mod literal;
mod met;
mod name;
mod names;
mod number;
mod turns;

pub use literal::literal_at;
pub use met::Met;
pub use name::family_name;
pub use number::{comparison, default_at, number_at, two_numbers};
pub use turns::{Turns, shared_name, turns_of};
