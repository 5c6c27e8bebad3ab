//! The tree of a source: its imports, modules and ports.

use crate::{Int, Item, Param};
use text_core::Text;

/// A source: its imports and then its modules, in order; one module at least.
#[derive(Drop)]
pub struct Source {
    pub imports: Vec<Import>,
    pub modules: Vec<Module>,
}

/// `import name;`
#[derive(Drop)]
pub struct Import {
    pub line: u32,
    pub name: Text,
}

/// `module name(params) { ports items }`; without parameters no brackets stand there
#[derive(Drop)]
pub struct Module {
    pub line: u32,
    pub name: Text,
    pub params: Vec<Param>,
    pub ports: Vec<Port>,
    pub items: Vec<Item>,
}

/// `input name: width;` or `output name: width;`
#[derive(Drop)]
pub struct Port {
    pub line: u32,
    pub output: bool,
    pub name: Text,
    pub width: Int,
}
