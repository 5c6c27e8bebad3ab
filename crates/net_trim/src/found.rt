//! Where the nodes of a net are found among those that were kept of it.

ghost use Rattle.std.specs.Prelude.{◌≡◌, ◌<◌, ◌++◌, [], ◌∷◌, IfOk, OnOk, All, IsSome, length, map};
ghost use Rattle.std.specs.Option.{ForSome};
ghost use Rattle.net_core.specs.Nodes.{shape_of, shape_at};
ghost use Rattle.net_core.specs.Builder.{constant_shape};
ghost use Rattle.net_trim.specs.Made.{ref_made, cell_made, IsMade};

use bv_core::{Binding, Bv, NodeId, Ref};
use lower_core::FullRow;
use net_core::{Net, Node};
use std::alloc::Global;
use symtab::{Cells, Row};
use text_core::NoMemory;

/// The value of a constant.
fn constant_of(node: &Node) -> Option<Bv>
    ensures { result ≡ constant_shape (shape_of node.now) }
{
    match node {
        Node::Const(value) => Some(*value),
        _ => None,
    }
}

/// Where a node is found: a constant by its value, another by its new id. None where it has no new id.
fn found(net: &Net, ids: &[Option<NodeId>], id: NodeId) -> Option<Ref>
    requires within { id.0 < length net.now.nodes }
    requires long { length ids.now ≡ length net.now.nodes }
    ensures { result ≡ ref_made net.now.nodes ids.now id }
{
    if let Some(value) = constant_of(net.node(id)) {
        return Some(Ref::Const(value));
    }
    let kept = ids[id.0 as usize]?;
    Some(Ref::Node(kept, net.width(id)))
}

/// Puts what a name stands for last.
fn push_binding(
    made: &mut Cells,
    net: &Net,
    ids: &[Option<NodeId>],
    cell: Option<NodeId>,
) -> Result<(), NoMemory>
    requires within { ForSome cell (λ id. id.0 < length net.now.nodes) }
    requires long { length ids.now ≡ length net.now.nodes }
    ensures { OnOk result (made.new ≡ made.old ++ cell_made net.now.nodes ids.now cell ∷ []) }
{
    let stands_for = match cell {
        Some(id) => match found(net, ids, id) {
            Some(at) => Binding::Value(at),
            None => Binding::Removed,
        },
        None => Binding::Unset,
    };
    made.push(stands_for)?;
    Ok(())
}

/// What names stand for, in order.
fn bindings(
    alloc: Global,
    net: &Net,
    ids: &[Option<NodeId>],
    cells: &[Option<NodeId>],
) -> Result<Cells, NoMemory>
    requires within { All (λ cell. ForSome cell (λ id. id.0 < length net.now.nodes)) cells.now }
    requires long { length ids.now ≡ length net.now.nodes }
    ensures { IfOk result (λ made. made ≡ map (cell_made net.now.nodes ids.now) cells.now) }
{
    let mut made = Cells::with_capacity(alloc, cells.len())?;
    for cell in cells {
        push_binding(&mut made, net, ids, *cell)?;
    }
    Ok(made)
}

/// A row of a table: where the enable is found, which is kept, and what each name stands for.
pub(crate) fn row_of(
    alloc: Global,
    net: &Net,
    ids: &[Option<NodeId>],
    row: &FullRow,
) -> Result<Row, NoMemory>
    requires within { row.now.on.0 < length net.now.nodes }
    requires cells { All (λ cell. ForSome cell (λ id. id.0 < length net.now.nodes)) row.now.cells }
    requires long { length ids.now ≡ length net.now.nodes }
    requires kept { IsSome (ref_made net.now.nodes ids.now row.now.on) }
    ensures { IfOk result (λ made. IsMade net.now.nodes ids.now row.now made) }
{
    let on = found(net, ids, row.on).unwrap();
    let cells = bindings(alloc, net, ids, row.cells.items())?;
    Ok(Row { on, cells })
}
