//! The rows of a process, behind those of the processes before it.

ghost use Rattle.std.specs.Prelude.{◌≡◌, length, IfOk, OnOk};
ghost use Rattle.design_core.specs.View.{block_of as the_block};
ghost use Rattle.design_exec.specs.Processes.{signals_in};
ghost use Rattle.place_core.specs.Assigned.{names_at};
ghost use Rattle.lower_core.specs.Rows.{AreTold};
ghost use Rattle.ssa_core.specs.Processes.{lists_of};
ghost use Rattle.ssa_nodes.specs.Driving.{AllHave};
ghost use Rattle.ssa_nodes.specs.Parts.{HasParts, HasState, design_in};
ghost use Rattle.term_net.specs.Growth.{Grown};
ghost use Rattle.row_net.specs.Blocks.{HasKey, IsBlockOf, SpotsPut, block_sites, signal_names};
ghost use Rattle.row_net.specs.Spots.{at_instance};

use crate::block::block_rows;
use bv_core::NodeId;
use design_core::Block;
use lower_core::FullRow;
use net_core::NetBuilder;
use ssa_nodes::{Parts, block_of, names_of};
use std::alloc::Global;
use text_core::NoMemory;

/// The rows of a block of an instance, which is the process of this number.
fn process_rows(
    alloc: Global,
    parts: &Parts<'_>,
    builder: &mut NetBuilder,
    nodes: &[Option<NodeId>],
    memos: &mut [Vec<Option<NodeId>>],
    number: usize,
    instance: u32,
    variant: u32,
    block: &Block,
    signals: &[&[u8]],
) -> Result<Vec<FullRow>, NoMemory>
    requires parts { HasParts parts.now }
    requires state { HasState parts.now builder.old nodes.now (lists_of memos.old) }
    requires all { AllHave parts.now nodes.now }
    requires key { HasKey (design_in parts.now) parts.now.keys.items number instance variant (the_block block.now) }
    requires block { IsBlockOf (design_in parts.now) instance variant (the_block block.now) }
    requires signals { names_at signals.now ≡ signal_names (signals_in (design_in parts.now) variant) }
    ensures told { IfOk result (λ rows. AreTold (design_in parts.now) (length parts.now.order.now) builder.new
        (at_instance instance (block_sites (design_in parts.now) variant (the_block block.now))) rows.items) }
    ensures state { OnOk result (HasState parts.now builder.new nodes.now (lists_of memos.new)) }
    ensures grown { OnOk result (Grown builder.old builder.new) }
{
    let key = parts.keys[number];
    let terms = block_of(parts, key);
    let places = names_of(parts, instance);
    let memo = &mut memos[number];
    let rows = block_rows(
        alloc, builder, block, terms, places, nodes, memo, signals, instance,
    )?;
    Ok(rows)
}

/// Puts the rows of a block of an instance behind others.
pub(crate) fn put_process(
    alloc: Global,
    parts: &Parts<'_>,
    builder: &mut NetBuilder,
    nodes: &[Option<NodeId>],
    memos: &mut [Vec<Option<NodeId>>],
    number: usize,
    instance: u32,
    variant: u32,
    block: &Block,
    signals: &[&[u8]],
    rows: &mut Vec<FullRow>,
) -> Result<(), NoMemory>
    requires parts { HasParts parts.now }
    requires state { HasState parts.now builder.old nodes.now (lists_of memos.old) }
    requires all { AllHave parts.now nodes.now }
    requires key { HasKey (design_in parts.now) parts.now.keys.items number instance variant (the_block block.now) }
    requires block { IsBlockOf (design_in parts.now) instance variant (the_block block.now) }
    requires signals { names_at signals.now ≡ signal_names (signals_in (design_in parts.now) variant) }
    ensures put { OnOk result (SpotsPut (design_in parts.now) (length parts.now.order.now) builder.old builder.new
        (at_instance instance (block_sites (design_in parts.now) variant (the_block block.now))) rows.old.items rows.new.items) }
    ensures state { OnOk result (HasState parts.now builder.new nodes.now (lists_of memos.new)) }
    ensures grown { OnOk result (Grown builder.old builder.new) }
{
    let mut more = process_rows(
        alloc, parts, builder, nodes, memos, number, instance, variant, block, signals,
    )?;
    rows.append(&mut more)?;
    Ok(())
}
