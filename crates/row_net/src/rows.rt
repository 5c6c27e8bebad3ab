//! The rows of all instances, instance by instance and block by block, as the log of each block has them.

ghost use Rattle.std.specs.Prelude.{◌≡◌, ◌+◌, length, IfOk, OnOk};
ghost use Rattle.design_exec.specs.Processes.{blocks_in};
ghost use Rattle.place_core.specs.Assigned.{names_at};
ghost use Rattle.world_core.specs.Sites.{all_spots};
ghost use Rattle.lower_core.specs.Rows.{AreTold};
ghost use Rattle.ssa_core.specs.Processes.{lists_of};
ghost use Rattle.ssa_nodes.specs.Driving.{AllHave};
ghost use Rattle.ssa_nodes.specs.Parts.{HasParts, HasState, design_in};
ghost use Rattle.term_net.specs.Growth.{Grown};
ghost use Rattle.row_net.specs.Blocks.{HaveKeys, IsInstance, SpotsPut, signal_names};
ghost use Rattle.row_net.specs.Spots.{instance_spots, spots_by_instance};

use crate::process::put_process;
use crate::sorted::by_slot;
use bv_core::NodeId;
use design_core::{Instance, Signal, blocks_of, signals_of};
use lower_core::FullRow;
use net_core::NetBuilder;
use ssa_nodes::Parts;
use std::alloc::Global;
use text_core::NoMemory;

/// The names of signals.
fn names_in<'a>(alloc: Global, signals: &'a [Signal]) -> Result<Vec<&'a [u8]>, NoMemory>
    ensures { IfOk result (λ names. names_at names.items ≡ signal_names signals.now) }
{
    let mut names = Vec::new(alloc);
    for signal in signals {
        names.push(signal.name.bytes())?;
    }
    Ok(names)
}

/// Puts the rows of an instance behind others, block by block; answers the number of the process behind its own.
fn put_instance(
    alloc: Global,
    parts: &Parts<'_>,
    builder: &mut NetBuilder,
    nodes: &[Option<NodeId>],
    memos: &mut [Vec<Option<NodeId>>],
    first: usize,
    number: u32,
    instance: &Instance,
    rows: &mut Vec<FullRow>,
) -> Result<usize, NoMemory>
    requires parts { HasParts parts.now }
    requires state { HasState parts.now builder.old nodes.now (lists_of memos.old) }
    requires all { AllHave parts.now nodes.now }
    requires keys { HaveKeys (design_in parts.now) parts.now.keys.items first (number, instance.now) }
    requires instance { IsInstance (design_in parts.now) number instance.now }
    ensures next { IfOk result (λ next. next ≡ first + length (blocks_in (design_in parts.now) instance.now.variant)) }
    ensures put { OnOk result (SpotsPut (design_in parts.now) (length parts.now.order.now) builder.old builder.new
        (instance_spots (design_in parts.now) (number, instance.now)) rows.old.items rows.new.items) }
    ensures state { OnOk result (HasState parts.now builder.new nodes.now (lists_of memos.new)) }
    ensures grown { OnOk result (Grown builder.old builder.new) }
{
    let variant = instance.variant;
    let signals = names_in(alloc, signals_of(&parts.design.variants, variant))?;
    let blocks = blocks_of(&parts.design.variants, variant);
    for (place, block) in blocks.iter().enumerate() {
        put_process(
            alloc,
            parts,
            builder,
            nodes,
            memos,
            first + place,
            number,
            variant,
            block,
            &signals,
            rows,
        )?;
    }
    Ok(first + blocks.len())
}

/// The rows of all instances, instance by instance.
fn rows_by_instance(
    alloc: Global,
    parts: &Parts<'_>,
    builder: &mut NetBuilder,
    nodes: &[Option<NodeId>],
    memos: &mut [Vec<Option<NodeId>>],
) -> Result<Vec<FullRow>, NoMemory>
    requires parts { HasParts parts.now }
    requires state { HasState parts.now builder.old nodes.now (lists_of memos.old) }
    requires all { AllHave parts.now nodes.now }
    ensures told { IfOk result (λ rows. AreTold (design_in parts.now) (length parts.now.order.now) builder.new
        (spots_by_instance (design_in parts.now)) rows.items) }
    ensures state { OnOk result (HasState parts.now builder.new nodes.now (lists_of memos.new)) }
    ensures grown { OnOk result (Grown builder.old builder.new) }
{
    let mut rows = Vec::new(alloc);
    let mut first = 0;
    for (number, instance) in parts.design.instances.items().iter().enumerate() {
        first = put_instance(
            alloc,
            parts,
            builder,
            nodes,
            memos,
            first,
            number as u32,
            instance,
            &mut rows,
        )?;
    }
    Ok(rows)
}

/// The rows of an accepted design, whose signals all have nodes: for each statement, in the order of the slots, and each
/// instance of its variant, in preorder, the node of its enable, and a node for each name in scope; none for a name that some
/// path to the statement does not assign. Takes time and memory for the rows and their cells.
pub fn rows_of(
    alloc: Global,
    parts: &Parts<'_>,
    builder: &mut NetBuilder,
    nodes: &[Option<NodeId>],
    memos: &mut [Vec<Option<NodeId>>],
) -> Result<Vec<FullRow>, NoMemory>
    requires parts { HasParts parts.now }
    requires state { HasState parts.now builder.old nodes.now (lists_of memos.old) }
    requires all { AllHave parts.now nodes.now }
    ensures told { IfOk result (λ rows. AreTold (design_in parts.now) (length parts.now.order.now) builder.new (all_spots (design_in parts.now)) rows.items) }
    ensures state { OnOk result (HasState parts.now builder.new nodes.now (lists_of memos.new)) }
    ensures grown { OnOk result (Grown builder.old builder.new) }
{
    let rows = rows_by_instance(alloc, parts, builder, nodes, memos)?;
    let sorted = by_slot(alloc, rows)?;
    Ok(sorted)
}
