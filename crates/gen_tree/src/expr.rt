//! The expressions and integers of a source. What is rare in an expression (the index of a member, a child's name, the bounds of a slice)
//! stands behind a box of its own, so that a node takes 48 bytes.

use std::boxed::Box;
use text_core::Text;

/// An integer that elaboration computes.
#[derive(Drop)]
pub enum Int {
    /// A number, from 0 to 2^62.
    Num(u64),
    /// A parameter or a loop variable.
    Var(Text),
    /// An operator between two of them, in brackets.
    Bin(IntOp, Box<Int>, Box<Int>),
}

/// An operator between two integers.
#[derive(Clone, Copy, PartialEq, Eq)]
pub enum IntOp {
    Add,
    Sub,
    Mul,
}

/// A comparison of two integers.
#[derive(Clone, Copy, PartialEq, Eq)]
pub enum Cmp {
    Eq,
    Ne,
    Lt,
    Le,
}

/// A name, with an index if it is a member of a family.
#[derive(Drop)]
pub struct Fam {
    pub name: Text,
    pub index: Option<Box<Int>>,
}

/// A literal: how wide it is said to be, and its value, which need not fit.
#[derive(Drop)]
pub enum Lit {
    /// A width from 0 to 2^62, and a value from 0 to 2^128 - 1.
    Plain { width: u64, value: u128 },
    /// `bits(width, value)`
    Bits { width: Box<Int>, value: Box<Int> },
}

/// An operator on one value.
#[derive(Clone, Copy, PartialEq, Eq)]
pub enum UnOp {
    Not,
    All,
    Any,
    Parity,
}

/// An operator on two values. `Cat` is written `cat(a, b)`, each other one between its operands.
#[derive(Clone, Copy, PartialEq, Eq)]
pub enum Op {
    Add,
    Sub,
    Mul,
    And,
    Or,
    Xor,
    Eq,
    Ne,
    Lt,
    Le,
    Shl,
    Shr,
    Cat,
}

/// An expression.
#[derive(Drop)]
pub enum Expr {
    /// A signal or a `let`.
    Read(Fam),
    /// An output of a child: the child's name and the output's.
    Out(Box<Fam>, Text),
    Value(Lit),
    Un(UnOp, Box<Expr>),
    Bin(Op, Box<Expr>, Box<Expr>),
    /// `mux(test, first, second)`
    Mux(Box<Expr>, Box<Expr>, Box<Expr>),
    /// `zext(value, width)`
    Zext(Box<Expr>, Int),
    /// `value[high:low]`
    Slice(Box<Expr>, Box<Int>, Box<Int>),
}
