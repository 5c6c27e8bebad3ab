//! What a symbol file has in its lists, before the numbers of nodes and variants are judged: these are of any size.

use symtab::{GenVariable, Names, NodeName, Row, VariantParts};
use text_core::{Listed, Text};

/// An instance: its path, and a number for its variant.
#[derive(Drop)]
pub struct InstanceEntry {
    pub path: Text,
    pub variant: u64,
}

/// A slot: a number for its variant, the place of its statement, its generator variables, the names in scope, and its rows, whose numbers of
/// nodes are of any size too. The statements of a block have one list of names.
#[derive(Drop)]
pub struct SlotEntry {
    pub variant: u64,
    pub line: u32,
    pub gens: Listed<GenVariable>,
    pub names: Names,
    pub rows: Listed<Row>,
}

/// The parts of a symbol file that keep the rules of shape.
#[derive(Drop)]
pub struct Entries {
    pub top: Text,
    pub nodes: Listed<NodeName>,
    pub variants: Listed<VariantParts>,
    pub instances: Listed<InstanceEntry>,
    pub slots: Listed<SlotEntry>,
}

/// A number that is outside its list, and the size of the list.
#[derive(Clone, Copy)]
pub struct Outside {
    pub id: u64,
    pub size: u64,
}
