//! The declared widths of names: that of the first signal of a name, and 1 where none has it. A `let` is assigned as a whole, so that it has
//! all of its bits or none, whatever its width is.
#![tactic(auto)]

mod declared;

pub use declared::{bits_of, declared_in, width_of};
