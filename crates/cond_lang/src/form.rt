//! An expression as a list of its parts from the last to the first: an operator before its operands, the last operand first. The list is made
//! and let go in one piece, and all that is bound of a text shares it: a name is its place among the text's names, so that each binding
//! reads it over places of its own.

use bv_core::Op2;
use gen_tree::UnOp;

/// An operator on one value, with the numbers that stand in the text, whether it fits with these or not.
#[derive(Clone, Copy)]
pub(crate) enum Unary {
    Plain(UnOp),
    Zext(u64),
    Slice(u64, u64),
}

/// A part of an expression, without its operands.
#[derive(Clone, Copy)]
pub(crate) enum Part {
    /// A literal: how wide it is said to be and its number, whether this fits or not.
    Const(u64, u128),
    /// A name: its place among the distinct names of the text, and how many tokens it has where it stands.
    Leaf(usize, usize),
    One(Unary),
    Two(Op2),
    /// A choice: the test, and what is chosen where it is 1 and where it is not.
    Mux,
}

/// The form of a whole expression.
#[derive(Drop)]
pub(crate) struct Form {
    pub(crate) parts: Vec<Part>,
}
