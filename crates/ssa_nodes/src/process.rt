//! What a name, or a register's next value, has in the block of a process, as a node. Terms are evaluated where they are asked for,
//! and once.

ghost use Rattle.std.specs.Prelude.{◌≡◌, ℕ, Some, slice_get, IfOk, OnOk};
ghost use Rattle.exec_core.specs.Block.{Now, Next};
ghost use Rattle.block_net.specs.Walks.{IsHeld, held as the_held};
ghost use Rattle.names.specs.Maps.{value_of};
ghost use Rattle.term_net.specs.Growth.{Grown};
ghost use Rattle.term_net.specs.Leaves.{leaf_id, leaf_tree};
ghost use Rattle.term_net.specs.Memos.{Fits};
ghost use Rattle.ssa_nodes.specs.Held.{CanHaveNode, NodeTold};
ghost use Rattle.ssa_core.specs.Processes.{lists_of, terms_at};
ghost use Rattle.ssa_nodes.specs.Parts.{CanHave, EndStands, HasNodeBy, HasParts, HasState, IsEnd, IsProcess, blocks_in};

use crate::held_node;
use crate::parts::{Parts, names_of};
use block_net::{BlockTerms, TermId};
use bv_core::NodeId;
use names::NameMap;
use net_core::NetBuilder;
use ssa_core::ProcessKey;
use std::alloc::Global;
use text_core::NoMemory;

/// The terms of the block of a process.
pub fn block_of<'p>(parts: &'p Parts<'_>, key: ProcessKey) -> &'p BlockTerms
    requires parts { HasParts parts.now }
    requires process { IsProcess parts.now key }
    ensures { terms_at (blocks_in parts.now) key.variant key.block ≡ Some result.now }
{
    &parts.blocks[key.variant as usize][key.block as usize]
}

/// The node of what a name has somewhere in a block, if it has a tree there.
fn held_in(
    alloc: Global,
    builder: &mut NetBuilder,
    block: &BlockTerms,
    names: &NameMap<u32>,
    nodes: &[Option<NodeId>],
    memo: &mut Vec<Option<NodeId>>,
    name: &[u8],
    held: Option<Option<TermId>>,
) -> Result<Option<NodeId>, NoMemory>
    requires fits { Fits builder.old (value_of names.now) nodes.now block.now.terms memo.old.items }
    requires within { IsHeld block.now.terms held }
    requires ready { CanHaveNode (leaf_id (value_of names.now) nodes.now) (leaf_tree builder.old (value_of names.now) nodes.now)
        (the_held block.now.terms name.now held) }
    ensures told { IfOk result (NodeTold builder.new (leaf_tree builder.new (value_of names.now) nodes.now) (the_held block.now.terms name.now held)) }
    ensures fits { OnOk result (Fits builder.new (value_of names.now) nodes.now block.now.terms memo.new.items) }
    ensures grown { OnOk result (Grown builder.old builder.new) }
{
    let id = held_node(alloc, builder, block, names, nodes, memo, name, held)?;
    Ok(id)
}

/// The node of what a name has somewhere in the block of a process, if it has a tree there.
pub fn process_node(
    alloc: Global,
    parts: &Parts<'_>,
    builder: &mut NetBuilder,
    nodes: &[Option<NodeId>],
    memos: &mut [Vec<Option<NodeId>>],
    number: u32,
    key: ProcessKey,
    block: &BlockTerms,
    name: &[u8],
    held: Option<Option<TermId>>,
) -> Result<Option<NodeId>, NoMemory>
    requires parts { HasParts parts.now }
    requires state { HasState parts.now builder.old nodes.now (lists_of memos.old) }
    requires key { slice_get parts.now.keys.items number ≡ Some key }
    requires block { terms_at (blocks_in parts.now) key.variant key.block ≡ Some block.now }
    requires within { IsHeld block.now.terms held }
    requires ready { CanHave parts.now nodes.now key.instance (the_held block.now.terms name.now held) }
    ensures told { IfOk result (HasNodeBy parts.now builder.new key.instance (the_held block.now.terms name.now held)) }
    ensures state { OnOk result (HasState parts.now builder.new nodes.now (lists_of memos.new)) }
    ensures grown { OnOk result (Grown builder.old builder.new) }
{
    let names = names_of(parts, key.instance);
    let memo = &mut memos[number as usize];
    let id = held_in(alloc, builder, block, names, nodes, memo, name, held)?;
    Ok(id)
}

/// The node of what a signal has that a process assigns, at the end of its block.
pub fn target_node(
    alloc: Global,
    parts: &Parts<'_>,
    builder: &mut NetBuilder,
    nodes: &[Option<NodeId>],
    memos: &mut [Vec<Option<NodeId>>],
    number: u32,
    name: &[u8],
) -> Result<NodeId, NoMemory>
    requires parts { HasParts parts.now }
    requires state { HasState parts.now builder.old nodes.now (lists_of memos.old) }
    requires ends { IsEnd parts.now nodes.now number (Now name.now) }
    ensures told { IfOk result (EndStands parts.now builder.new number (Now name.now)) }
    ensures state { OnOk result (HasState parts.now builder.new nodes.now (lists_of memos.new)) }
    ensures grown { OnOk result (Grown builder.old builder.new) }
{
    let key = parts.keys[number as usize];
    let block = block_of(parts, key);
    let held = block.name(name);
    let id = process_node(
        alloc, parts, builder, nodes, memos, number, key, block, name, held,
    )?;
    Ok(id.unwrap())
}

/// The node of what a register holds next that a process writes.
pub fn next_node(
    alloc: Global,
    parts: &Parts<'_>,
    builder: &mut NetBuilder,
    nodes: &[Option<NodeId>],
    memos: &mut [Vec<Option<NodeId>>],
    number: u32,
    name: &[u8],
) -> Result<NodeId, NoMemory>
    requires parts { HasParts parts.now }
    requires state { HasState parts.now builder.old nodes.now (lists_of memos.old) }
    requires ends { IsEnd parts.now nodes.now number (Next name.now) }
    ensures told { IfOk result (EndStands parts.now builder.new number (Next name.now)) }
    ensures state { OnOk result (HasState parts.now builder.new nodes.now (lists_of memos.new)) }
    ensures grown { OnOk result (Grown builder.old builder.new) }
{
    let key = parts.keys[number as usize];
    let block = block_of(parts, key);
    let held = block.register(name);
    let id = process_node(
        alloc, parts, builder, nodes, memos, number, key, block, name, held,
    )?;
    Ok(id.unwrap())
}
