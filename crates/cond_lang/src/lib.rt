//! Conditions of the debugger: how a text is read as one, bound to what names stand for at a place, and evaluated.
#![tactic(auto)]

mod binding;
mod cond;
mod counts;
mod distinct;
mod fault;
mod fits;
mod form;
mod laws;
mod ops;
mod read;
mod spelled;
mod text;
mod tokens;
mod value;
mod widths;

pub use binding::bind;
pub use cond::Cond;
pub use fault::{BindEnd, CondFault};
pub use laws::{one_answer, parts_are_spelled, widths_are_told};
pub use read::read_cond;
pub use text::CondText;
pub use value::{truth, value_of};
