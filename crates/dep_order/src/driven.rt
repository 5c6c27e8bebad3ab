//! The whole: signals numbered, wired to their drivers, ordered; the order tells of the driven ones alone.

ghost use Rattle.std.specs.Prelude.{◌≡◌, ◌≤◌, ℕ, None, false, [], length, slice_index_or, IfOk, IfErr, OnOk};
ghost use Rattle.dep_order.specs.Reaching.{IsLayered};
ghost use Rattle.graph_order.specs.Graphs.{IsGraph, edges_of};
ghost use Rattle.design_core.specs.DesignView.{design_of};
ghost use Rattle.check_core.specs.Verdict.{verdict};
ghost use Rattle.place_core.specs.Numbering.{numbers_of, AreCounted};
ghost use Rattle.dep_order.specs.Linking.{AllLayered, AreBelow, TellDesign};
ghost use Rattle.ssa_core.specs.Processes.{lists_of};
ghost use Rattle.dep_order.specs.Ordering.{DriversAreTrees, DrivesDesign, IsWiredDesign, TellsFault, marked_in, pairs_of};
ghost use Rattle.place_core.specs.Orders.{TellsOrder};

use crate::answer::OrderFault;
use crate::instances::{drive_links, drive_processes};
use crate::signals::order_signals;
use block_net::BlockTerms;
use design_core::{Design, in_32_bits};
use graph_order::{Graph, GraphFault};
use names::NameMap;
use place_core::{Order, number_signals};
use ssa_core::block_terms_of;
use std::alloc::{AllocError, Global};
use text_core::NoMemory;

/// So many vertices without edges.
fn vertices(alloc: Global, count: usize) -> Result<Graph, NoMemory>
    ensures count { IfOk result (λ graph. length graph ≡ count) }
    ensures none { IfOk result (λ graph. (v : ℕ) → edges_of graph v ≡ []) }
{
    let mut graph = Graph::new(alloc);
    for _ in 0..count {
        graph.add(&[])?;
    }
    Ok(graph)
}

/// Those of some vertices that are marked.
fn marked_in(alloc: Global, marks: &[bool], vertices: &[u32]) -> Result<Vec<u32>, AllocError>
    ensures { IfOk result (λ kept. kept.items ≡ marked_in marks.now vertices.now) }
{
    let mut kept = Vec::new(alloc);
    for v in vertices {
        if marks.get(*v as usize).copied().unwrap_or(false) {
            kept.push(*v)?;
        }
    }
    Ok(kept)
}

/// The pairs of some numbers.
fn pairs_of(
    alloc: Global,
    pairs: &[(u32, u32)],
    numbers: &[u32],
) -> Result<Vec<(u32, u32)>, AllocError>
    ensures { IfOk result (λ list. list.items ≡ pairs_of pairs.now numbers.now) }
{
    let mut list = Vec::new(alloc);
    for n in numbers {
        list.push(pairs.get(*n as usize).copied().unwrap_or((0, 0)))?;
    }
    Ok(list)
}

/// Drives the signals of a design by its links and blocks, which have these terms, in a graph in which nothing drives them yet.
fn wire(
    alloc: Global,
    graph: &mut Graph,
    driven: &mut [bool],
    design: &Design,
    maps: &[NameMap<u32>],
    terms: &[Vec<BlockTerms>],
) -> Result<(), NoMemory>
    requires graph { IsGraph graph.old }
    requires below { AreBelow (length graph.old) (numbers_of maps.now) }
    requires marked { AreBelow (length driven.old) (numbers_of maps.now) }
    requires maps { length maps.now ≡ length design.now.instances }
    requires tell { TellDesign (design_of design.now) (lists_of terms.now) }
    ensures longer { OnOk result (length graph.old ≤ length graph.new) }
    ensures layers { OnOk result (AllLayered graph.old graph.new (numbers_of maps.now)) }
    ensures drives { OnOk result (DrivesDesign graph.old driven.old graph.new driven.new (numbers_of maps.now) (design_of design.now)) }
{
    drive_links(alloc, graph, driven, design, maps)?;
    drive_processes(alloc, graph, driven, design, maps, terms)?;
    Ok(())
}

/// An order of a design's driven signals, or a loop, by a graph in which each signal has edges to what drives it.
fn order_wired(
    alloc: Global,
    graph: &Graph,
    driven: &[bool],
    design: &Design,
    maps: &[NameMap<u32>],
    pairs: &[(u32, u32)],
) -> Result<Order, OrderFault>
    requires counted { AreCounted (design_of design.now) (numbers_of maps.now, pairs.now) }
    requires wired { IsWiredDesign (design_of design.now) (numbers_of maps.now, pairs.now) graph.now driven.now }
    requires signals { length pairs.now ≤ length graph.now }
    requires layered { IsLayered (length pairs.now) graph.now }
    requires trees { DriversAreTrees (design_of design.now) }
    ensures order { IfOk result (TellsOrder (design_of design.now)) }
    ensures cycle { IfErr result (TellsFault (design_of design.now)) }
{
    let signals = in_32_bits(pairs.len())?;
    match order_signals(alloc, graph, signals) {
        Ok(all) => {
            let marked = marked_in(alloc, driven, &all)?;
            let pairs = pairs_of(alloc, pairs, &marked)?;
            Ok(Order::new(pairs))
        }
        Err(GraphFault::Cycle(cycle)) => {
            let cycle = pairs_of(alloc, pairs, &cycle)?;
            Err(OrderFault::CombLoop { cycle })
        }
        Err(GraphFault::NoMemory) => Err(OrderFault::NoMemory),
    }
}

/// The same by a graph without edges, in which no signal is driven.
fn wire_and_order(
    alloc: Global,
    graph: &mut Graph,
    driven: &mut [bool],
    design: &Design,
    maps: &[NameMap<u32>],
    pairs: &[(u32, u32)],
    terms: &[Vec<BlockTerms>],
) -> Result<Order, OrderFault>
    requires counted { AreCounted (design_of design.now) (numbers_of maps.now, pairs.now) }
    requires tell { TellDesign (design_of design.now) (lists_of terms.now) }
    requires count { length graph.old ≡ length pairs.now }
    requires none { (v : ℕ) → edges_of graph.old v ≡ [] }
    requires marks { length driven.old ≡ length pairs.now }
    requires unmarked { (v : ℕ) → slice_index_or driven.old v false ≡ false }
    requires trees { DriversAreTrees (design_of design.now) }
    ensures order { IfOk result (TellsOrder (design_of design.now)) }
    ensures cycle { IfErr result (TellsFault (design_of design.now)) }
{
    wire(alloc, graph, driven, design, maps, terms)?;
    order_wired(alloc, graph, driven, design, maps, pairs)
}

/// The same, where these are the numbers of the design's signals and the terms of its blocks.
fn order_counted(
    alloc: Global,
    design: &Design,
    maps: &[NameMap<u32>],
    pairs: &[(u32, u32)],
    terms: &[Vec<BlockTerms>],
) -> Result<Order, OrderFault>
    requires counted { AreCounted (design_of design.now) (numbers_of maps.now, pairs.now) }
    requires tell { TellDesign (design_of design.now) (lists_of terms.now) }
    requires trees { DriversAreTrees (design_of design.now) }
    ensures order { IfOk result (TellsOrder (design_of design.now)) }
    ensures cycle { IfErr result (TellsFault (design_of design.now)) }
{
    let mut graph = vertices(alloc, pairs.len())?;
    let mut driven = vec![in alloc; false; pairs.len()]?;
    wire_and_order(alloc, &mut graph, &mut driven, design, maps, pairs, terms)
}

/// An order of the driven signals of a design that the checks accept, all but registers and inputs of the top, each after those
/// that it depends on; or signals that depend on one another.
pub fn order(alloc: Global, design: &Design) -> Result<Order, OrderFault>
    requires accepted { verdict (design_of design.now) ≡ None }
    ensures order { IfOk result (TellsOrder (design_of design.now)) }
    ensures cycle { IfErr result (TellsFault (design_of design.now)) }
{
    let terms = block_terms_of(alloc, design)?;
    let (maps, pairs) = number_signals(alloc, design)?;
    order_counted(alloc, design, &maps, &pairs, &terms)
}
