//! A module with its parameters: what one instance of it has, told once for all of them.

use crate::{Expr, Literal, Stmt};
use gen_scope::Scope;
use text_core::{Listed, Text};

/// What a signal is.
#[derive(Drop)]
pub enum Kind {
    Input,
    Output,
    Wire,
    /// A register with the value that it starts with.
    Reg(Literal),
    /// An output of the child of this number, with the output's name.
    ChildOut(u32, Text),
}

/// A signal of an instance, with the line of its declaration and its width, which is from -2^62 to 2^62.
#[derive(Drop)]
pub struct Signal {
    pub line: u32,
    pub name: Text,
    pub kind: Kind,
    pub width: i64,
}

/// What an input of a child is connected to.
#[derive(Drop)]
pub struct Conn {
    pub line: u32,
    pub port: Text,
    pub value: Expr,
}

/// An instance inside a module: its name there, its variant by number, and its connections in order.
#[derive(Drop)]
pub struct Child {
    pub line: u32,
    pub name: Text,
    pub variant: u32,
    pub conns: Vec<Conn>,
}

/// A `comb`, or an `ff` where it is clocked, with its statements.
#[derive(Drop)]
pub struct Block {
    pub line: u32,
    pub clocked: bool,
    pub body: Vec<Stmt>,
}

/// A module with its parameters: its signals in the order of their declaration (the outputs of a child at the place of its
/// `inst`), its children and its blocks.
#[derive(Drop)]
pub struct Variant {
    pub module: Text,
    pub params: Scope,
    pub signals: Listed<Signal>,
    pub children: Vec<Child>,
    pub blocks: Vec<Block>,
}
