//! The log of a block's walk replayed: a visit gives a row, a set changes what a name has for the rows behind it.

ghost use Rattle.std.specs.Prelude.{◌≡◌, ◌++◌, ◌∷◌, [], IfOk, OnOk};
ghost use Rattle.list_core.specs.Lists.{EachOf};
ghost use Rattle.names.specs.Maps.{value_of};
ghost use Rattle.place_core.specs.Assigned.{names_at};
ghost use Rattle.block_net.specs.declared.effect.Effect.TheVariants.{Set};
ghost use Rattle.block_net.specs.Logs.{AreWithin};
ghost use Rattle.block_net.specs.Terms.{IsWithin, tree_for};
ghost use Rattle.term_net.specs.Growth.{Grown};
ghost use Rattle.term_net.specs.Leaves.{leaf_id, leaf_tree};
ghost use Rattle.term_net.specs.Memos.{Fits};
ghost use Rattle.row_net.specs.Told.{AreHeld, EnableHas, EnableReady, RowHas, RowReady, RowsHave, RowsPut, after_step, name_rows, names_by, row_of_slot, rows_of_step};

use crate::cells::cells_of;
use block_net::{BlockTerms, Effect, Key, TermId};
use bv_core::NodeId;
use lower_core::FullRow;
use names::NameMap;
use net_core::NetBuilder;
use std::alloc::Global;
use term_net::evaluate;
use text_core::{Listed, NoMemory};

/// The node of an enable.
fn enable_node(
    alloc: Global,
    builder: &mut NetBuilder,
    block: &BlockTerms,
    places: &NameMap<u32>,
    nodes: &[Option<NodeId>],
    memo: &mut [Option<NodeId>],
    enable: Option<TermId>,
) -> Result<NodeId, NoMemory>
    requires fits { Fits builder.old (value_of places.now) nodes.now block.now.terms memo.old }
    requires within { IsWithin block.now.terms enable }
    requires ready { EnableReady (leaf_id (value_of places.now) nodes.now) (leaf_tree builder.old (value_of places.now) nodes.now)
        (tree_for block.now.terms enable) }
    ensures has { IfOk result (EnableHas builder.new (leaf_tree builder.new (value_of places.now) nodes.now) (tree_for block.now.terms enable)) }
    ensures fits { OnOk result (Fits builder.new (value_of places.now) nodes.now block.now.terms memo.new) }
    ensures grown { OnOk result (Grown builder.old builder.new) }
{
    let root = enable.unwrap();
    let id = evaluate(alloc, builder, block, places, nodes, memo, root)?;
    Ok(id)
}

/// The row of an instance at a slot, before whose statement names have this.
fn row_of(
    alloc: Global,
    builder: &mut NetBuilder,
    block: &BlockTerms,
    places: &NameMap<u32>,
    nodes: &[Option<NodeId>],
    memo: &mut [Option<NodeId>],
    held: &NameMap<Option<TermId>>,
    signals: &[&[u8]],
    lets: &[&[u8]],
    instance: u32,
    slot: u32,
    enable: Option<TermId>,
) -> Result<FullRow, NoMemory>
    requires fits { Fits builder.old (value_of places.now) nodes.now block.now.terms memo.old }
    requires held { AreHeld block.now.terms (value_of held.now) }
    requires within { IsWithin block.now.terms enable }
    requires ready { RowReady (leaf_id (value_of places.now) nodes.now) (leaf_tree builder.old (value_of places.now) nodes.now)
        (names_at signals.now ++ names_at lets.now) (row_of_slot block.now.terms slot enable (names_by block.now.terms (value_of held.now))) }
    ensures has { IfOk result (RowHas builder.new (leaf_tree builder.new (value_of places.now) nodes.now) instance
        (names_at signals.now ++ names_at lets.now) (row_of_slot block.now.terms slot enable (names_by block.now.terms (value_of held.now)))) }
    ensures fits { OnOk result (Fits builder.new (value_of places.now) nodes.now block.now.terms memo.new) }
    ensures grown { OnOk result (Grown builder.old builder.new) }
{
    let on = enable_node(alloc, builder, block, places, nodes, memo, enable)?;
    let cells = cells_of(
        alloc, builder, block, places, nodes, memo, held, signals, lets,
    )?;
    Ok(FullRow {
        slot,
        instance,
        on,
        cells: Listed::new(cells),
    })
}

/// Puts the row of an instance at a slot behind others.
fn put_row(
    alloc: Global,
    builder: &mut NetBuilder,
    block: &BlockTerms,
    places: &NameMap<u32>,
    nodes: &[Option<NodeId>],
    memo: &mut [Option<NodeId>],
    held: &NameMap<Option<TermId>>,
    signals: &[&[u8]],
    lets: &[&[u8]],
    instance: u32,
    slot: u32,
    enable: Option<TermId>,
    rows: &mut Vec<FullRow>,
) -> Result<(), NoMemory>
    requires fits { Fits builder.old (value_of places.now) nodes.now block.now.terms memo.old }
    requires held { AreHeld block.now.terms (value_of held.now) }
    requires within { IsWithin block.now.terms enable }
    requires ready { RowReady (leaf_id (value_of places.now) nodes.now) (leaf_tree builder.old (value_of places.now) nodes.now)
        (names_at signals.now ++ names_at lets.now) (row_of_slot block.now.terms slot enable (names_by block.now.terms (value_of held.now))) }
    ensures put { OnOk result (RowsPut builder.old builder.new (value_of places.now) nodes.now instance (names_at signals.now ++ names_at lets.now)
        (row_of_slot block.now.terms slot enable (names_by block.now.terms (value_of held.now)) ∷ []) rows.old.items rows.new.items) }
    ensures fits { OnOk result (Fits builder.new (value_of places.now) nodes.now block.now.terms memo.new) }
    ensures grown { OnOk result (Grown builder.old builder.new) }
{
    let row = row_of(
        alloc, builder, block, places, nodes, memo, held, signals, lets, instance, slot, enable,
    )?;
    rows.push(row)?;
    Ok(())
}

/// Notes what a name has from here on. What registers hold in the next cycle is not noted.
fn set_key(
    alloc: Global,
    block: &BlockTerms,
    held: &mut NameMap<Option<TermId>>,
    key: &Key,
    id: Option<TermId>,
) -> Result<(), NoMemory>
    requires held { AreHeld block.now.terms (value_of held.old) }
    requires within { IsWithin block.now.terms id }
    ensures after { OnOk result (names_by block.now.terms (value_of held.new)
        ≡ after_step block.now.terms (Set key.now id) (names_by block.now.terms (value_of held.old))) }
    ensures held { OnOk result (AreHeld block.now.terms (value_of held.new)) }
{
    match key {
        Key::Now(name) => {
            held.put(alloc, name.bytes(), id)?;
            Ok(())
        }
        Key::Next(_) => Ok(()),
    }
}

/// Takes an effect of a block's log: notes what a key has, or puts the row of a slot behind others.
fn take_step(
    alloc: Global,
    builder: &mut NetBuilder,
    block: &BlockTerms,
    places: &NameMap<u32>,
    nodes: &[Option<NodeId>],
    memo: &mut [Option<NodeId>],
    held: &mut NameMap<Option<TermId>>,
    signals: &[&[u8]],
    lets: &[&[u8]],
    instance: u32,
    effect: &Effect,
    rows: &mut Vec<FullRow>,
) -> Result<(), NoMemory>
    requires fits { Fits builder.old (value_of places.now) nodes.now block.now.terms memo.old }
    requires held { AreHeld block.now.terms (value_of held.old) }
    requires within { AreWithin block.now.terms (effect.now ∷ []) }
    requires ready { EachOf (RowReady (leaf_id (value_of places.now) nodes.now) (leaf_tree builder.old (value_of places.now) nodes.now)
        (names_at signals.now ++ names_at lets.now)) (rows_of_step block.now.terms effect.now (names_by block.now.terms (value_of held.old))) }
    ensures after { OnOk result (names_by block.now.terms (value_of held.new)
        ≡ after_step block.now.terms effect.now (names_by block.now.terms (value_of held.old))) }
    ensures held { OnOk result (AreHeld block.now.terms (value_of held.new)) }
    ensures put { OnOk result (RowsPut builder.old builder.new (value_of places.now) nodes.now instance (names_at signals.now ++ names_at lets.now)
        (rows_of_step block.now.terms effect.now (names_by block.now.terms (value_of held.old))) rows.old.items rows.new.items) }
    ensures fits { OnOk result (Fits builder.new (value_of places.now) nodes.now block.now.terms memo.new) }
    ensures grown { OnOk result (Grown builder.old builder.new) }
{
    match effect {
        Effect::Set(key, id) => {
            set_key(alloc, block, held, key, *id)?;
            Ok(())
        }
        Effect::Slot(slot, enable) => {
            put_row(
                alloc, builder, block, places, nodes, memo, held, signals, lets, instance, *slot,
                *enable, rows,
            )?;
            Ok(())
        }
    }
}

/// The rows that a block's log tells of an instance, where names have this before it.
pub(crate) fn replay(
    alloc: Global,
    builder: &mut NetBuilder,
    block: &BlockTerms,
    places: &NameMap<u32>,
    nodes: &[Option<NodeId>],
    memo: &mut [Option<NodeId>],
    held: &mut NameMap<Option<TermId>>,
    signals: &[&[u8]],
    lets: &[&[u8]],
    instance: u32,
) -> Result<Vec<FullRow>, NoMemory>
    requires fits { Fits builder.old (value_of places.now) nodes.now block.now.terms memo.old }
    requires held { AreHeld block.now.terms (value_of held.old) }
    requires ready { EachOf (RowReady (leaf_id (value_of places.now) nodes.now) (leaf_tree builder.old (value_of places.now) nodes.now)
        (names_at signals.now ++ names_at lets.now)) (name_rows block.now.terms block.now.log (names_by block.now.terms (value_of held.old))) }
    ensures have { IfOk result (λ rows. RowsHave builder.new (leaf_tree builder.new (value_of places.now) nodes.now) instance
        (names_at signals.now ++ names_at lets.now) (name_rows block.now.terms block.now.log
        (names_by block.now.terms (value_of held.old))) rows.items) }
    ensures fits { OnOk result (Fits builder.new (value_of places.now) nodes.now block.now.terms memo.new) }
    ensures grown { OnOk result (Grown builder.old builder.new) }
{
    let log = block.log();
    let mut rows = Vec::new(alloc);
    for effect in log {
        take_step(
            alloc, builder, block, places, nodes, memo, held, signals, lets, instance, effect,
            &mut rows,
        )?;
    }
    Ok(rows)
}
