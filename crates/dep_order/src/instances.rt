//! The links and blocks of all instances, instance by instance. The first that drives a signal counts.

ghost use Rattle.std.specs.Prelude.{◌≡◌, ◌<◌, ◌≤◌, ℕ, [], ◌∷◌, length, map, Some, slice_get, OnOk};
ghost use Rattle.std.specs.List.{enumerate_from, flat_map};
ghost use Rattle.tree_core.specs.Tree.{Leaf};
ghost use Rattle.exec_core.specs.Design.{place};
ghost use Rattle.graph_order.specs.Graphs.{IsGraph};
ghost use Rattle.list_core.specs.Lists.{EachOf};
ghost use Rattle.design_core.specs.declared.variant.Signal.{Signal};
ghost use Rattle.design_core.specs.View.{child_of};
ghost use Rattle.design_core.specs.DesignView.{design_of};
ghost use Rattle.design_exec.specs.Processes.{conn_link, instances_of, links_at, none_or, numbers_below, processes_at};
ghost use Rattle.place_core.specs.Numbering.{numbers_of};
ghost use Rattle.dep_order.specs.Linking.{AllLayered, AreBelow, DrivesLinks, DrivesProcesses, TellDesign, terms_in};
ghost use Rattle.ssa_core.specs.Processes.{lists_of};
ghost use Rattle.place_core.specs.Linking.{links_of_child, link_of_output};

use crate::wiring::{drive_blocks, drive_conns, drive_output};
use block_net::BlockTerms;
use design_core::{
    Block, Child, Design, Instance, Kind, Signal, Variant, blocks_of, children_of, in_32_bits,
    signals_of,
};
use graph_order::Graph;
use names::NameMap;
use place_core::numbers_by_parent;
use std::alloc::Global;
use text_core::NoMemory;

/// The number at a place, if there is one.
fn number_at(below: &[u32], place: usize) -> Option<u32>
    ensures { result ≡ slice_get below.now place }
{
    below.get(place).copied()
}

/// Drives the inputs of a child of an instance by what is connected to them there, unless their drivers were met before. The
/// child is the instance of number `child`.
fn drive_child(
    alloc: Global,
    graph: &mut Graph,
    driven: &mut [bool],
    maps: &[NameMap<u32>],
    instance: u32,
    number: Option<u32>,
    child: &Child,
) -> Result<(), NoMemory>
    requires graph { IsGraph graph.old }
    requires below { AreBelow (length graph.old) (numbers_of maps.now) }
    requires marked { AreBelow (length driven.old) (numbers_of maps.now) }
    requires instance { instance < length maps.now }
    requires number { (j : ℕ) → number ≡ Some j → j < length maps.now }
    ensures graph { OnOk result (IsGraph graph.new) }
    ensures count { length graph.new ≡ length graph.old }
    ensures drives { OnOk result (DrivesLinks graph.old driven.old graph.new driven.new (numbers_of maps.now)
        (none_or (λ j. map (conn_link instance j) (child_of child.now).conns) number)) }
    ensures layers { OnOk result (AllLayered graph.old graph.new (numbers_of maps.now)) }
{
    match number {
        Some(number) => drive_conns(
            alloc,
            graph,
            driven,
            &maps[number as usize],
            &maps[instance as usize],
            &child.conns,
        ),
        None => Ok(()),
    }
}

/// The same of the children of an instance in order, which are the instances of these numbers.
#[tactic(auto, using(crate::proofs::Linked::number_within))]
fn drive_children(
    alloc: Global,
    graph: &mut Graph,
    driven: &mut [bool],
    maps: &[NameMap<u32>],
    instance: u32,
    below: &[u32],
    children: &[Child],
) -> Result<(), NoMemory>
    requires graph { IsGraph graph.old }
    requires below { AreBelow (length graph.old) (numbers_of maps.now) }
    requires marked { AreBelow (length driven.old) (numbers_of maps.now) }
    requires instance { instance < length maps.now }
    requires numbers { EachOf (λ j. j < length maps.now) below.now }
    ensures graph { OnOk result (IsGraph graph.new) }
    ensures count { length graph.new ≡ length graph.old }
    ensures drives { OnOk result (DrivesLinks graph.old driven.old graph.new driven.new (numbers_of maps.now)
        (flat_map (links_of_child instance below.now) (enumerate_from 0 (map child_of children.now)))) }
    ensures layers { OnOk result (AllLayered graph.old graph.new (numbers_of maps.now)) }
{
    for (place, child) in children.iter().enumerate() {
        let number = number_at(below, place);
        drive_child(alloc, graph, driven, maps, instance, number, child)?;
    }
    Ok(())
}

/// Drives a signal of an instance by an output of a child, which is the instance of this number, unless its driver was met
/// before.
fn drive_child_output(
    graph: &mut Graph,
    driven: &mut [bool],
    maps: &[NameMap<u32>],
    instance: u32,
    number: Option<u32>,
    name: &[u8],
    output: &[u8],
) -> Result<(), NoMemory>
    requires graph { IsGraph graph.old }
    requires below { AreBelow (length graph.old) (numbers_of maps.now) }
    requires marked { AreBelow (length driven.old) (numbers_of maps.now) }
    requires instance { instance < length maps.now }
    requires number { (j : ℕ) → number ≡ Some j → j < length maps.now }
    ensures graph { OnOk result (IsGraph graph.new) }
    ensures count { length graph.new ≡ length graph.old }
    ensures drives { OnOk result (DrivesLinks graph.old driven.old graph.new driven.new (numbers_of maps.now)
        (none_or (λ j. (place instance name.now, Leaf (place j output.now)) ∷ []) number)) }
    ensures layers { OnOk result (AllLayered graph.old graph.new (numbers_of maps.now)) }
{
    match number {
        Some(number) => drive_output(
            graph,
            driven,
            &maps[number as usize],
            &maps[instance as usize],
            name,
            output,
        ),
        None => Ok(()),
    }
}

/// Drives a signal of an instance by the output of a child that it is, if it is one, unless its driver was met before.
#[tactic(auto, using(crate::proofs::Linked::number_within, crate::proofs::Linked::links_none))]
fn drive_child_out(
    graph: &mut Graph,
    driven: &mut [bool],
    maps: &[NameMap<u32>],
    instance: u32,
    below: &[u32],
    signal: &Signal,
) -> Result<(), NoMemory>
    requires graph { IsGraph graph.old }
    requires below { AreBelow (length graph.old) (numbers_of maps.now) }
    requires marked { AreBelow (length driven.old) (numbers_of maps.now) }
    requires instance { instance < length maps.now }
    requires numbers { EachOf (λ j. j < length maps.now) below.now }
    ensures graph { OnOk result (IsGraph graph.new) }
    ensures count { length graph.new ≡ length graph.old }
    ensures drives { OnOk result (DrivesLinks graph.old driven.old graph.new driven.new (numbers_of maps.now)
        (link_of_output instance below.now signal.now.name signal.now.kind)) }
    ensures layers { OnOk result (AllLayered graph.old graph.new (numbers_of maps.now)) }
{
    match &signal.kind {
        Kind::ChildOut(child, output) => drive_child_output(
            graph,
            driven,
            maps,
            instance,
            number_at(below, *child as usize),
            signal.name.bytes(),
            output.bytes(),
        ),
        Kind::Input | Kind::Output | Kind::Wire | Kind::Reg(_) => Ok(()),
    }
}

/// The same of the signals of an instance in order.
fn drive_child_outs(
    graph: &mut Graph,
    driven: &mut [bool],
    maps: &[NameMap<u32>],
    instance: u32,
    below: &[u32],
    signals: &[Signal],
) -> Result<(), NoMemory>
    requires graph { IsGraph graph.old }
    requires below { AreBelow (length graph.old) (numbers_of maps.now) }
    requires marked { AreBelow (length driven.old) (numbers_of maps.now) }
    requires instance { instance < length maps.now }
    requires numbers { EachOf (λ j. j < length maps.now) below.now }
    ensures graph { OnOk result (IsGraph graph.new) }
    ensures count { length graph.new ≡ length graph.old }
    ensures drives { OnOk result (DrivesLinks graph.old driven.old graph.new driven.new (numbers_of maps.now)
        (flat_map (λ (s : Signal). link_of_output instance below.now s.name s.kind) signals.now)) }
    ensures layers { OnOk result (AllLayered graph.old graph.new (numbers_of maps.now)) }
{
    for signal in signals {
        drive_child_out(graph, driven, maps, instance, below, signal)?;
    }
    Ok(())
}

/// An instance as the parent of its children: its number, and the numbers of these in order.
struct Parent<'a> {
    number: u32,
    instance: &'a Instance,
    below: &'a [u32],
}

/// Drives the inputs of the children of an instance, and its signals that are outputs of children, by the links of the instance,
/// unless their drivers were met before.
fn drive_instance(
    alloc: Global,
    graph: &mut Graph,
    driven: &mut [bool],
    design: &Design,
    maps: &[NameMap<u32>],
    parent: Parent<'_>,
) -> Result<(), NoMemory>
    requires graph { IsGraph graph.old }
    requires below { AreBelow (length graph.old) (numbers_of maps.now) }
    requires marked { AreBelow (length driven.old) (numbers_of maps.now) }
    requires maps { length maps.now ≡ length design.now.instances }
    requires number { parent.number < length maps.now }
    requires children { parent.below.now ≡ numbers_below (design_of design.now) parent.number }
    ensures graph { OnOk result (IsGraph graph.new) }
    ensures count { length graph.new ≡ length graph.old }
    ensures drives { OnOk result (DrivesLinks graph.old driven.old graph.new driven.new (numbers_of maps.now)
        (links_at (design_of design.now) (parent.entry.number, parent.entry.instance.now))) }
    ensures layers { OnOk result (AllLayered graph.old graph.new (numbers_of maps.now)) }
{
    let Parent {
        number,
        instance,
        below,
    } = parent;
    let children = children_of(&design.variants, instance.variant);
    drive_children(alloc, graph, driven, maps, number, below, children)?;
    let signals = signals_of(&design.variants, instance.variant);
    drive_child_outs(graph, driven, maps, number, below, signals)?;
    Ok(())
}

/// The same of all instances in order: by all links of a design.
pub(crate) fn drive_links(
    alloc: Global,
    graph: &mut Graph,
    driven: &mut [bool],
    design: &Design,
    maps: &[NameMap<u32>],
) -> Result<(), NoMemory>
    requires graph { IsGraph graph.old }
    requires below { AreBelow (length graph.old) (numbers_of maps.now) }
    requires marked { AreBelow (length driven.old) (numbers_of maps.now) }
    requires maps { length maps.now ≡ length design.now.instances }
    ensures graph { OnOk result (IsGraph graph.new) }
    ensures count { length graph.new ≡ length graph.old }
    ensures drives { OnOk result (DrivesLinks graph.old driven.old graph.new driven.new (numbers_of maps.now)
        (flat_map (links_at (design_of design.now)) (instances_of (design_of design.now)))) }
    ensures layers { OnOk result (AllLayered graph.old graph.new (numbers_of maps.now)) }
{
    let below = numbers_by_parent(alloc, design)?;
    for (number, instance) in design.instances.items().iter().enumerate() {
        let parent = Parent {
            number: in_32_bits(number)?,
            instance,
            below: &below[number],
        };
        drive_instance(alloc, graph, driven, design, maps, parent)?;
    }
    Ok(())
}

/// The terms of the blocks of the variant of this number; none, where there is no such variant.
fn terms_of(all: &[Vec<BlockTerms>], variant: u32) -> &[BlockTerms]
    ensures { result.now ≡ terms_in (lists_of all.now) variant }
{
    match all.get(variant as usize) {
        Some(terms) => terms,
        None => &[],
    }
}

/// Drives the signals that the blocks of all instances assign, by the terms of the blocks of each variant, unless their drivers were met
/// before.
pub(crate) fn drive_processes(
    alloc: Global,
    graph: &mut Graph,
    driven: &mut [bool],
    design: &Design,
    maps: &[NameMap<u32>],
    terms: &[Vec<BlockTerms>],
) -> Result<(), NoMemory>
    requires graph { IsGraph graph.old }
    requires below { AreBelow (length graph.old) (numbers_of maps.now) }
    requires marked { AreBelow (length driven.old) (numbers_of maps.now) }
    requires maps { length maps.now ≡ length design.now.instances }
    requires tell { TellDesign (design_of design.now) (lists_of terms.now) }
    ensures graph { OnOk result (IsGraph graph.new) }
    ensures longer { OnOk result (length graph.old ≤ length graph.new) }
    ensures drives { OnOk result (DrivesProcesses graph.old driven.old graph.new driven.new (numbers_of maps.now)
        (flat_map (processes_at (design_of design.now)) (instances_of (design_of design.now)))) }
    ensures layers { OnOk result (AllLayered graph.old graph.new (numbers_of maps.now)) }
{
    for (number, instance) in design.instances.items().iter().enumerate() {
        let blocks = blocks_of(&design.variants, instance.variant);
        let terms = terms_of(terms, instance.variant);
        drive_blocks(alloc, graph, driven, &maps[number], blocks, terms)?;
    }
    Ok(())
}
