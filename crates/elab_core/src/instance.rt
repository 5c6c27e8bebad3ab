//! What elaboration gives of one instance, before instances are gathered into variants.

use design_core::{Block, Conn, Signal};
use gen_scope::Scope;
use text_core::Text;

/// An instance inside a module, as the walk meets it: its module by its place among those of all sources, and its parameters.
#[derive(Drop)]
pub struct Child {
    pub line: u32,
    pub name: Text,
    pub place: usize,
    pub params: Scope,
    pub conns: Vec<Conn>,
}

/// What a module's body gives in an instance. The statements of the blocks have slot 0.
#[derive(Drop)]
pub struct Content {
    pub signals: Vec<Signal>,
    pub children: Vec<Child>,
    pub blocks: Vec<Block>,
}

/// An instance as the walk gives it: its path, the number of the instance that it stands in, its module by its place among those
/// of all sources, its parameters, and what its body gives.
#[derive(Drop)]
pub struct Instance {
    pub path: Text,
    pub parent: Option<u32>,
    pub place: usize,
    pub params: Scope,
    pub content: Content,
}
