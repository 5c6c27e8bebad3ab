//! The cells of a row: what each name in scope has before the statement, signals first and then lets.

ghost use Rattle.std.specs.Prelude.{◌≡◌, ◌++◌, ◌∷◌, [], IfOk, OnOk};
ghost use Rattle.list_core.specs.Lists.{EachOf};
ghost use Rattle.names.specs.Maps.{value_of};
ghost use Rattle.place_core.specs.Assigned.{names_at};
ghost use Rattle.term_net.specs.Growth.{Grown};
ghost use Rattle.term_net.specs.Leaves.{leaf_id, leaf_tree};
ghost use Rattle.term_net.specs.Memos.{Fits};
ghost use Rattle.ssa_nodes.specs.Held.{CanHaveNode};
ghost use Rattle.row_net.specs.Told.{AreHeld, CellsHave, CellsPut, names_by};

use block_net::{BlockTerms, TermId};
use bv_core::NodeId;
use names::NameMap;
use net_core::NetBuilder;
use ssa_nodes::held_node;
use std::alloc::Global;
use text_core::NoMemory;

/// Puts the node of what a name has somewhere in a block behind others; none where it has no tree there.
fn put_cell(
    alloc: Global,
    builder: &mut NetBuilder,
    block: &BlockTerms,
    places: &NameMap<u32>,
    nodes: &[Option<NodeId>],
    memo: &mut [Option<NodeId>],
    held: &NameMap<Option<TermId>>,
    name: &[u8],
    cells: &mut Vec<Option<NodeId>>,
) -> Result<(), NoMemory>
    requires fits { Fits builder.old (value_of places.now) nodes.now block.now.terms memo.old }
    requires held { AreHeld block.now.terms (value_of held.now) }
    requires ready { CanHaveNode (leaf_id (value_of places.now) nodes.now) (leaf_tree builder.old (value_of places.now) nodes.now)
        (names_by block.now.terms (value_of held.now) name.now) }
    ensures put { OnOk result (CellsPut builder.old builder.new (value_of places.now) nodes.now (names_by block.now.terms (value_of held.now))
        (name.now ∷ []) cells.old.items cells.new.items) }
    ensures fits { OnOk result (Fits builder.new (value_of places.now) nodes.now block.now.terms memo.new) }
    ensures grown { OnOk result (Grown builder.old builder.new) }
{
    let id = held_node(
        alloc,
        builder,
        block,
        places,
        nodes,
        memo,
        name,
        held.get(name),
    )?;
    cells.push(id)?;
    Ok(())
}

/// The same of names in order.
fn put_cells(
    alloc: Global,
    builder: &mut NetBuilder,
    block: &BlockTerms,
    places: &NameMap<u32>,
    nodes: &[Option<NodeId>],
    memo: &mut [Option<NodeId>],
    held: &NameMap<Option<TermId>>,
    names: &[&[u8]],
    cells: &mut Vec<Option<NodeId>>,
) -> Result<(), NoMemory>
    requires fits { Fits builder.old (value_of places.now) nodes.now block.now.terms memo.old }
    requires held { AreHeld block.now.terms (value_of held.now) }
    requires ready { EachOf (λ x. CanHaveNode (leaf_id (value_of places.now) nodes.now) (leaf_tree builder.old (value_of places.now) nodes.now)
        (names_by block.now.terms (value_of held.now) x)) (names_at names.now) }
    ensures put { OnOk result (CellsPut builder.old builder.new (value_of places.now) nodes.now (names_by block.now.terms (value_of held.now))
        (names_at names.now) cells.old.items cells.new.items) }
    ensures fits { OnOk result (Fits builder.new (value_of places.now) nodes.now block.now.terms memo.new) }
    ensures grown { OnOk result (Grown builder.old builder.new) }
{
    for name in names {
        put_cell(
            alloc, builder, block, places, nodes, memo, held, name, cells,
        )?;
    }
    Ok(())
}

/// The nodes of what names have somewhere in a block: of signals of its instance, and then of its lets.
pub(crate) fn cells_of(
    alloc: Global,
    builder: &mut NetBuilder,
    block: &BlockTerms,
    places: &NameMap<u32>,
    nodes: &[Option<NodeId>],
    memo: &mut [Option<NodeId>],
    held: &NameMap<Option<TermId>>,
    signals: &[&[u8]],
    lets: &[&[u8]],
) -> Result<Vec<Option<NodeId>>, NoMemory>
    requires fits { Fits builder.old (value_of places.now) nodes.now block.now.terms memo.old }
    requires held { AreHeld block.now.terms (value_of held.now) }
    requires ready { EachOf (λ x. CanHaveNode (leaf_id (value_of places.now) nodes.now) (leaf_tree builder.old (value_of places.now) nodes.now)
        (names_by block.now.terms (value_of held.now) x)) (names_at signals.now ++ names_at lets.now) }
    ensures have { IfOk result (λ cells. CellsHave builder.new (leaf_tree builder.new (value_of places.now) nodes.now)
        (names_by block.now.terms (value_of held.now)) (names_at signals.now ++ names_at lets.now) cells.items) }
    ensures fits { OnOk result (Fits builder.new (value_of places.now) nodes.now block.now.terms memo.new) }
    ensures grown { OnOk result (Grown builder.old builder.new) }
{
    let room = signals.len().saturating_add(lets.len());
    let mut cells = Vec::with_capacity(alloc, room)?;
    put_cells(
        alloc, builder, block, places, nodes, memo, held, signals, &mut cells,
    )?;
    put_cells(
        alloc, builder, block, places, nodes, memo, held, lets, &mut cells,
    )?;
    Ok(cells)
}
