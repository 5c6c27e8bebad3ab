//! The elaborated design, and what each design keeps (`specs/WellFormed.antt`): the crates above state their contracts by it.
//! `Ports` is the top of a design as its surroundings see it.
#![tactic(auto)]

mod design;
mod dotted;
mod expr;
mod let_list;
mod number;
mod parts;
mod ports;
mod preorder;
mod statement;
mod top;
mod variant;
mod widths;

pub use design::{Design, Instance};
pub use dotted::below;
pub use expr::{Expr, Literal, Op, UnOp};
pub use let_list::{let_names, lets};
pub use number::in_32_bits;
pub use parts::{blocks_of, children_of, signals_of};
pub use ports::Ports;
pub use preorder::statements;
pub use statement::{Arm, Stmt};
pub use top::ports_of;
pub use variant::{Block, Child, Conn, Kind, Signal, Variant};
pub use widths::{bits, constant};
