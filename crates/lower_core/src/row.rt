//! What lowering leaves of a design, before anything is trimmed: every node that the source speaks of, so that what is removed later is removed in one
//! place.

use bv_core::NodeId;
use net_core::Net;
use symtab::TableParts;
use text_core::Listed;
use world_core::Mode;

/// What one instance has at a statement: the node of its enable, and a node for each name in scope, in order; None for a name
/// that some path to the statement does not assign.
#[derive(Drop)]
pub struct FullRow {
    pub slot: u32,
    pub instance: u32,
    pub on: NodeId,
    pub cells: Listed<Option<NodeId>>,
}

/// A design as a net. There is a row for each statement, in the order of the slots, and each instance of its variant, in
/// preorder. The shape is that of its symbol table, without nodes and rows.
#[derive(Drop)]
pub struct Lowered {
    pub net: Net,
    pub rows: Listed<FullRow>,
    pub mode: Mode,
    pub shape: TableParts,
}
