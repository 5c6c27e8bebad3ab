//! The rows of one block of one instance, replayed from the log of its walk.

ghost use Rattle.std.specs.Prelude.{◌≡◌, ◌++◌, map, IfOk, OnOk};
ghost use Rattle.list_core.specs.Lists.{EachOf};
ghost use Rattle.design_core.specs.Slots.{lets_of};
ghost use Rattle.design_core.specs.View.{block_of, body_of};
ghost use Rattle.design_exec.specs.Processes as processes;
ghost use Rattle.names.specs.Known.{has};
ghost use Rattle.names.specs.Maps.{value_of};
ghost use Rattle.place_core.specs.Assigned.{assigned_in as the_assigned, names_at};
ghost use Rattle.term_net.specs.Growth.{Grown};
ghost use Rattle.term_net.specs.Leaves.{leaf_id, leaf_tree};
ghost use Rattle.term_net.specs.Memos.{Fits};
ghost use Rattle.row_net.specs.Told.{RowReady, RowsHave, log_rows, name_row, no_own};

use crate::replay::replay;
use block_net::{BlockTerms, TermId};
use bv_core::NodeId;
use design_core::{Block, Stmt, lets};
use lower_core::FullRow;
use names::NameMap;
use net_core::NetBuilder;
use place_core::assigned_in;
use std::alloc::Global;
use text_core::NoMemory;

/// What the names of a list have before a block's first statement, of which they are the own names: nothing.
fn without_trees(alloc: Global, names: &[&[u8]]) -> Result<NameMap<Option<TermId>>, NoMemory>
    ensures { IfOk result (λ held. value_of held ≡ no_own (has (names_at names.now))) }
{
    let mut held = NameMap::new(alloc);
    for name in names {
        held.put(alloc, name, None)?;
    }
    Ok(held)
}

/// What names have before the first statement of a body: its own names have nothing, and others are themselves.
fn before_first(
    alloc: Global,
    clocked: bool,
    body: &[Stmt],
) -> Result<NameMap<Option<TermId>>, NoMemory>
    ensures { IfOk result (λ held. value_of held ≡ no_own (the_assigned clocked (body_of body.now))) }
{
    let names = assigned_in(alloc, clocked, body)?;
    let held = without_trees(alloc, &names)?;
    Ok(held)
}

/// The rows of a block of an instance, in the order of its statements: a cell for each signal, and for each of its lets.
pub(crate) fn block_rows(
    alloc: Global,
    builder: &mut NetBuilder,
    block: &Block,
    terms: &BlockTerms,
    places: &NameMap<u32>,
    nodes: &[Option<NodeId>],
    memo: &mut [Option<NodeId>],
    signals: &[&[u8]],
    instance: u32,
) -> Result<Vec<FullRow>, NoMemory>
    requires fits { Fits builder.old (value_of places.now) nodes.now terms.now.terms memo.old }
    requires ready { EachOf (RowReady (leaf_id (value_of places.now) nodes.now) (leaf_tree builder.old (value_of places.now) nodes.now)
        (names_at signals.now ++ lets_of (block_of block.now).body))
        (map name_row (log_rows terms.now (processes.body_of block.now.clocked (block_of block.now).body))) }
    ensures have { IfOk result (λ rows. RowsHave builder.new (leaf_tree builder.new (value_of places.now) nodes.now) instance
        (names_at signals.now ++ lets_of (block_of block.now).body)
        (map name_row (log_rows terms.now (processes.body_of block.now.clocked (block_of block.now).body))) rows.items) }
    ensures fits { OnOk result (Fits builder.new (value_of places.now) nodes.now terms.now.terms memo.new) }
    ensures grown { OnOk result (Grown builder.old builder.new) }
{
    let lets = lets(alloc, &block.body)?;
    let mut held = before_first(alloc, block.clocked, &block.body)?;
    let rows = replay(
        alloc, builder, terms, places, nodes, memo, &mut held, signals, &lets, instance,
    )?;
    Ok(rows)
}
