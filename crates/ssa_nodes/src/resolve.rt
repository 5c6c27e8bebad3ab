//! Along the order each driven signal gets the node of what drives it, so all that it reads has one.

ghost use Rattle.std.specs.Prelude.{◌≡◌, ◌<◌, Some, None, is_some, slice_index_or, length, IfOk, OnOk};
ghost use Rattle.exec_core.specs.Design.{place};
ghost use Rattle.place_core.specs.Orders.{signal_at};
ghost use Rattle.term_net.specs.Growth.{Grown};
ghost use Rattle.ssa_core.specs.Processes.{lists_of};
ghost use Rattle.ssa_core.specs.Drives.{DrivesPlace};
ghost use Rattle.ssa_nodes.specs.Parts.{HasParts, HasState, design_in};
ghost use Rattle.ssa_nodes.specs.Driving.{AllHave, DriverStands, GivenHave, HasDriver, IsPair, IsSignalAt, PairResolved, Resolved};

use crate::parts::Parts;
use crate::process::target_node;
use crate::source::link_node;
use bv_core::NodeId;
use design_core::signals_of;
use net_core::NetBuilder;
use ssa_core::{Drive, number_of};
use std::alloc::Global;
use text_core::NoMemory;

/// What drives a signal that is driven.
fn drive_at(parts: &Parts<'_>, nodes: &[Option<NodeId>], instance: u32, name: &[u8]) -> Drive
    requires parts { HasParts parts.now }
    requires driver { HasDriver parts.now nodes.now (place instance name.now) }
    ensures { DrivesPlace (design_in parts.now) parts.now.links.items parts.now.keys.items (place instance name.now) result }
{
    let number = number_of(&parts.maps, instance, name).unwrap();
    parts.drives[number as usize].unwrap()
}

/// The node of what drives a signal.
fn driver_node(
    alloc: Global,
    parts: &Parts<'_>,
    builder: &mut NetBuilder,
    nodes: &[Option<NodeId>],
    memos: &mut [Vec<Option<NodeId>>],
    instance: u32,
    name: &[u8],
) -> Result<NodeId, NoMemory>
    requires parts { HasParts parts.now }
    requires state { HasState parts.now builder.old nodes.now (lists_of memos.old) }
    requires driver { HasDriver parts.now nodes.now (place instance name.now) }
    ensures stands { IfOk result (DriverStands parts.now builder.new (place instance name.now)) }
    ensures state { OnOk result (HasState parts.now builder.new nodes.now (lists_of memos.new)) }
    ensures grown { OnOk result (Grown builder.old builder.new) }
{
    match drive_at(parts, nodes, instance, name) {
        Drive::Link(number) => {
            let link = &parts.links[number as usize];
            let id = link_node(alloc, parts, builder, nodes, link)?;
            Ok(id)
        }
        Drive::Process(number) => {
            let id = target_node(alloc, parts, builder, nodes, memos, number, name)?;
            Ok(id)
        }
    }
}

/// Whether there is a node at a place.
pub fn is_placed(nodes: &[Option<NodeId>], number: u32) -> bool
    requires { number < length nodes.now }
    ensures { result ≡ is_some (slice_index_or nodes.now number None) }
{
    match nodes[number as usize] {
        Some(_) => true,
        None => false,
    }
}

/// Gives a signal that is driven its node.
fn resolve_signal(
    alloc: Global,
    parts: &Parts<'_>,
    builder: &mut NetBuilder,
    nodes: &mut [Option<NodeId>],
    memos: &mut [Vec<Option<NodeId>>],
    instance: u32,
    name: &[u8],
) -> Result<(), NoMemory>
    requires parts { HasParts parts.now }
    requires long { length nodes.old ≡ parts.now.count }
    requires state { HasState parts.now builder.old nodes.old (lists_of memos.old) }
    requires driver { HasDriver parts.now nodes.old (place instance name.now) }
    ensures resolved { OnOk result (Resolved parts.now nodes.old nodes.new (place instance name.now)) }
    ensures state { OnOk result (HasState parts.now builder.new nodes.new (lists_of memos.new)) }
    ensures grown { OnOk result (Grown builder.old builder.new) }
{
    let number = number_of(&parts.maps, instance, name).unwrap();
    if is_placed(nodes, number) {
        return Ok(());
    }
    let id = driver_node(alloc, parts, builder, nodes, memos, instance, name)?;
    nodes[number as usize] = Some(id);
    Ok(())
}

/// The name of a signal of an instance, by its place among the signals.
fn name_at<'p>(parts: &'p Parts<'_>, instance: u32, signal: u32) -> &'p [u8]
    requires { IsSignalAt parts.now (instance, signal) }
    ensures { signal_at (design_in parts.now) (instance, signal) ≡ Some (place instance result.now) }
{
    let variant = parts.design.instances.items()[instance as usize].variant;
    signals_of(&parts.design.variants, variant)[signal as usize]
        .name
        .bytes()
}

/// The same of a pair of an instance and the place of a signal there.
fn resolve_pair(
    alloc: Global,
    parts: &Parts<'_>,
    builder: &mut NetBuilder,
    nodes: &mut [Option<NodeId>],
    memos: &mut [Vec<Option<NodeId>>],
    pair: (u32, u32),
) -> Result<(), NoMemory>
    requires parts { HasParts parts.now }
    requires long { length nodes.old ≡ parts.now.count }
    requires state { HasState parts.now builder.old nodes.old (lists_of memos.old) }
    requires driver { IsPair parts.now nodes.old pair }
    ensures resolved { OnOk result (PairResolved parts.now nodes.old nodes.new pair) }
    ensures state { OnOk result (HasState parts.now builder.new nodes.new (lists_of memos.new)) }
    ensures grown { OnOk result (Grown builder.old builder.new) }
{
    let (instance, signal) = pair;
    let name = name_at(parts, instance, signal);
    resolve_signal(alloc, parts, builder, nodes, memos, instance, name)?;
    Ok(())
}

/// Gives every driven signal its node, along the order; what is given has its nodes already.
pub fn resolve_all(
    alloc: Global,
    parts: &Parts<'_>,
    builder: &mut NetBuilder,
    nodes: &mut [Option<NodeId>],
    memos: &mut [Vec<Option<NodeId>>],
) -> Result<(), NoMemory>
    requires parts { HasParts parts.now }
    requires long { length nodes.old ≡ parts.now.count }
    requires state { HasState parts.now builder.old nodes.old (lists_of memos.old) }
    requires given { GivenHave parts.now nodes.old }
    ensures all { OnOk result (AllHave parts.now nodes.new) }
    ensures state { OnOk result (HasState parts.now builder.new nodes.new (lists_of memos.new)) }
    ensures grown { OnOk result (Grown builder.old builder.new) }
{
    for pair in parts.order.list() {
        resolve_pair(alloc, parts, builder, nodes, memos, *pair)?;
    }
    Ok(())
}
