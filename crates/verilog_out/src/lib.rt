//! Nets as Verilog: the text of a module that has the net's equations.
//!
//! The part of Verilog that is written, its spelling, and what it means are defined in `specs`.
#![tactic(auto)]

mod expression;
mod head;
mod laws;
mod line;
mod name;
mod part;
mod print;

pub use laws::{printed_means_net, prints_the_samples, texts_tell_modules};
pub use print::print_net;
