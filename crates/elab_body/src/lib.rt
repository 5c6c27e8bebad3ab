//! The walk over expressions and statements.
#![tactic(auto)]

mod build;
mod expr;
mod loops;
mod simple;
mod statement;

pub use expr::expression;
pub use loops::{Loop, loop_of};
pub use statement::{block, statements};
