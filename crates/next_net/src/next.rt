//! What each register holds next, as a node: what the block that writes it ends with, or the register itself.

ghost use Rattle.std.specs.Prelude.{◌≡◌, true, map, Some, IfOk, OnOk};
ghost use Rattle.tree_core.specs.Tree.{Leaf};
ghost use Rattle.exec_core.specs.Design.{next_tree, place};
ghost use Rattle.list_core.specs.Lists.{EachOf};
ghost use Rattle.design_exec.specs.Processes.{is_signal_of, processes_of};
ghost use Rattle.net_core.specs.Nets.{NextsFit, nexts_of as pairs_of};
ghost use Rattle.term_net.specs.Growth.{Grown};
ghost use Rattle.ssa_core.specs.Processes.{lists_of};
ghost use Rattle.ssa_nodes.specs.State.{HasNode, node_of};
ghost use Rattle.ssa_nodes.specs.Parts.{HasParts, HasState, StandsBy, all_in, design_in};
ghost use Rattle.ssa_nodes.specs.Driving.{AllHave};
ghost use Rattle.next_net.specs.Writers.{AreWriters, IsWriter};
ghost use Rattle.next_net.specs.Registers.{register_as};
ghost use Rattle.next_net.specs.Nexts.{AllNext, AreNexts, NextStands};

use crate::register::{Register, registers_of};
use crate::writer::writers_of;
use bv_core::NodeId;
use net_core::NetBuilder;
use ssa_core::number_of;
use ssa_nodes::{Parts, leaf_node, names_of, next_node};
use std::alloc::Global;
use text_core::NoMemory;

/// The process that writes a signal, if one does.
fn writer_at(parts: &Parts<'_>, writers: &[Option<u32>], instance: u32, name: &[u8]) -> Option<u32>
    requires parts { HasParts parts.now }
    requires writers { AreWriters (processes_of (design_in parts.now)).processes parts.now.count (all_in parts.now) writers.now }
    requires signal { is_signal_of (design_in parts.now) (place instance name.now) ≡ true }
    ensures { IsWriter (processes_of (design_in parts.now)).processes (place instance name.now) result }
{
    let number = number_of(&parts.maps, instance, name).unwrap();
    writers[number as usize]
}

/// The node of a signal that has one.
fn signal_node(parts: &Parts<'_>, nodes: &[Option<NodeId>], instance: u32, name: &[u8]) -> NodeId
    requires parts { HasParts parts.now }
    requires has { HasNode (all_in parts.now) nodes.now (place instance name.now) }
    ensures { node_of (all_in parts.now) nodes.now (place instance name.now) ≡ Some result }
{
    let names = names_of(parts, instance);
    leaf_node(names, nodes, name).unwrap()
}

/// The node of what a signal holds next that this process writes; the signal's own node where none does.
fn written_node(
    alloc: Global,
    parts: &Parts<'_>,
    builder: &mut NetBuilder,
    nodes: &[Option<NodeId>],
    memos: &mut [Vec<Option<NodeId>>],
    writer: Option<u32>,
    instance: u32,
    name: &[u8],
    itself: NodeId,
) -> Result<NodeId, NoMemory>
    requires parts { HasParts parts.now }
    requires state { HasState parts.now builder.old nodes.now (lists_of memos.old) }
    requires all { AllHave parts.now nodes.now }
    requires signal { is_signal_of (design_in parts.now) (place instance name.now) ≡ true }
    requires writer { IsWriter (processes_of (design_in parts.now)).processes (place instance name.now) writer }
    requires itself { StandsBy parts.now builder.old (Leaf (place instance name.now)) itself }
    ensures stands { IfOk result (StandsBy parts.now builder.new (next_tree (processes_of (design_in parts.now)) (place instance name.now))) }
    ensures state { OnOk result (HasState parts.now builder.new nodes.now (lists_of memos.new)) }
    ensures grown { OnOk result (Grown builder.old builder.new) }
{
    match writer {
        None => Ok(itself),
        Some(number) => {
            let next = next_node(alloc, parts, builder, nodes, memos, number, name)?;
            Ok(next)
        }
    }
}

/// The node of a register with the node of what it holds next.
fn register_next(
    alloc: Global,
    parts: &Parts<'_>,
    builder: &mut NetBuilder,
    nodes: &[Option<NodeId>],
    memos: &mut [Vec<Option<NodeId>>],
    writers: &[Option<u32>],
    instance: u32,
    name: &[u8],
) -> Result<(NodeId, NodeId), NoMemory>
    requires parts { HasParts parts.now }
    requires state { HasState parts.now builder.old nodes.now (lists_of memos.old) }
    requires all { AllHave parts.now nodes.now }
    requires writers { AreWriters (processes_of (design_in parts.now)).processes parts.now.count (all_in parts.now) writers.now }
    requires signal { is_signal_of (design_in parts.now) (place instance name.now) ≡ true }
    ensures stands { IfOk result (NextStands parts.now builder.new (place instance name.now)) }
    ensures state { OnOk result (HasState parts.now builder.new nodes.now (lists_of memos.new)) }
    ensures grown { OnOk result (Grown builder.old builder.new) }
{
    let id = signal_node(parts, nodes, instance, name);
    let writer = writer_at(parts, writers, instance, name);
    let next = written_node(
        alloc, parts, builder, nodes, memos, writer, instance, name, id,
    )?;
    Ok((id, next))
}

/// The same of registers in order.
fn register_nexts(
    alloc: Global,
    parts: &Parts<'_>,
    builder: &mut NetBuilder,
    nodes: &[Option<NodeId>],
    memos: &mut [Vec<Option<NodeId>>],
    writers: &[Option<u32>],
    registers: &[Register<'_>],
) -> Result<Vec<(NodeId, NodeId)>, NoMemory>
    requires parts { HasParts parts.now }
    requires state { HasState parts.now builder.old nodes.now (lists_of memos.old) }
    requires all { AllHave parts.now nodes.now }
    requires writers { AreWriters (processes_of (design_in parts.now)).processes parts.now.count (all_in parts.now) writers.now }
    requires signals { EachOf (λ q. is_signal_of (design_in parts.now) q ≡ true) (map register_as registers.now) }
    ensures nexts { IfOk result (λ nexts. AreNexts parts.now builder.new (map register_as registers.now) (pairs_of nexts.items)) }
    ensures state { OnOk result (HasState parts.now builder.new nodes.now (lists_of memos.new)) }
    ensures grown { OnOk result (Grown builder.old builder.new) }
{
    let mut nexts = Vec::new(alloc);
    for register in registers {
        let next = register_next(
            alloc,
            parts,
            builder,
            nodes,
            memos,
            writers,
            register.instance,
            register.name,
        )?;
        nexts.push(next)?;
    }
    Ok(nexts)
}

/// The node of each register with the node of what it holds next. All signals have nodes by then.
pub fn nexts_of(
    alloc: Global,
    parts: &Parts<'_>,
    builder: &mut NetBuilder,
    nodes: &[Option<NodeId>],
    memos: &mut [Vec<Option<NodeId>>],
) -> Result<Vec<(NodeId, NodeId)>, NoMemory>
    requires parts { HasParts parts.now }
    requires state { HasState parts.now builder.old nodes.now (lists_of memos.old) }
    requires all { AllHave parts.now nodes.now }
    ensures told { IfOk result (λ nexts. AllNext parts.now builder.new (pairs_of nexts.items)) }
    ensures fit { IfOk result (λ nexts. NextsFit builder.new (pairs_of nexts.items)) }
    ensures state { OnOk result (HasState parts.now builder.new nodes.now (lists_of memos.new)) }
    ensures grown { OnOk result (Grown builder.old builder.new) }
{
    let writers = writers_of(alloc, parts)?;
    let registers = registers_of(alloc, parts.design)?;
    let nexts = register_nexts(alloc, parts, builder, nodes, memos, &writers, &registers)?;
    Ok(nexts)
}
