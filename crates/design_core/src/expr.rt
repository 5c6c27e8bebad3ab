//! Expressions of a design. Names are those of one instance; integers are computed, and not yet judged.

use std::boxed::Box;
use text_core::Text;

/// An operator on one value.
#[derive(Clone, Copy, PartialEq, Eq)]
pub enum UnOp {
    Not,
    All,
    Any,
    Parity,
}

/// An operator on two values.
#[derive(Clone, Copy, PartialEq, Eq)]
pub enum Op {
    Add,
    Sub,
    Mul,
    And,
    Or,
    Xor,
    Eq,
    Ne,
    Lt,
    Le,
    Shl,
    Shr,
    Cat,
}

/// A literal: how wide it is said to be, and its value, which need not fit. Both are from -2^62 to 2^62 where they were
/// computed; a width that was written is from 0 to 2^62, and a value that was written from 0 to 2^128 - 1.
#[derive(Drop)]
pub struct Literal {
    /// The width in bits, as it was said.
    pub width: i64,
    /// Whether the value is below 0.
    pub negative: bool,
    /// The value without its sign.
    pub value: u128,
}

/// An expression over the names of an instance.
#[derive(Drop)]
pub enum Expr {
    /// A signal or a `let`.
    Read(Text),
    /// An output of a child: the child's name and the output's.
    Out(Text, Text),
    Value(Literal),
    Un(UnOp, Box<Expr>),
    Bin(Op, Box<Expr>, Box<Expr>),
    /// The second where the first is 1, and otherwise the third.
    Mux(Box<Expr>, Box<Expr>, Box<Expr>),
    /// Filled with 0 to this width, from -2^62 to 2^62.
    Zext(Box<Expr>, i64),
    /// The bits from the first number down to the second; both are from -2^62 to 2^62.
    Slice(Box<Expr>, i64, i64),
}
