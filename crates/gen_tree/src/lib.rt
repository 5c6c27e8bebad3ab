//! The trees of a source, and the grammar: what a tree spells.
//!
//! A part that has a `line` has the place of its first token there: 2^24 times the number of its file, and the line, counted from 1.
#![tactic(auto)]

mod dialect;
mod expr;
mod item;
mod source;
mod statement;

pub use dialect::Dialect;
pub use expr::{Cmp, Expr, Fam, Int, IntOp, Lit, Op, UnOp};
pub use item::{Conn, Item, Param};
pub use source::{Import, Module, Port, Source};
pub use statement::{Arm, Stmt};
