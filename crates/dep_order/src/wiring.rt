//! A signal's vertex gets edges to what drives the signal, once.

ghost use Rattle.std.specs.Prelude.{◌≡◌, ◌≢◌, ◌<◌, ◌≤◌, ℕ, length, map, true, option_map, IfOk, OnOk};
ghost use Rattle.graph_order.specs.Graphs as graphs;
ghost use Rattle.graph_order.specs.Graphs.{IsGraph, edges_of};
ghost use Rattle.list_core.specs.Lists.{EachOf};
ghost use Rattle.dep_order.specs.Wiring.{Drives, DrivesBlock, DrivesBlocks, DrivesBy, DrivesConn, DrivesConns, DrivesName, DrivesNames, DrivesOutput, KeepsOthers, StaysLayered};
ghost use Rattle.dep_order.specs.Blocks.{AreSignals, single, version_of};
ghost use Rattle.names.specs.Maps.{value_of};
ghost use Rattle.names.specs.Known.{has};
ghost use Rattle.place_core.specs.Assigned.{names_at};
ghost use Rattle.dep_order.specs.Standing.{AreVertices, StandFor};
ghost use Rattle.exec_core.specs.Block.{Name};
ghost use Rattle.design_core.specs.View.{block_of, conn_of, expr_of};
ghost use Rattle.design_exec.specs.Processes.{tree_of};

use crate::block::follow_block;
use crate::maps::VersionMap;
use crate::reading::read_expr;
use block_net::BlockTerms;
use design_core::{Block, Conn, Expr};
use graph_order::Graph;
use names::NameMap;
use place_core::assigned_in;
use std::alloc::Global;
use text_core::NoMemory;

/// Gives a signal's vertex these edges, unless its driver was met before.
pub(crate) fn drive(
    graph: &mut Graph,
    driven: &mut [bool],
    vertex: u32,
    edges: &[u32],
) -> Result<(), NoMemory>
    requires graph { IsGraph graph.old }
    requires vertex { vertex < length graph.old }
    requires marked { vertex < length driven.old }
    requires edges { EachOf (λ w. w < length graph.old) edges.now }
    ensures count { length graph.new ≡ length graph.old }
    ensures graph { OnOk result (IsGraph graph.new) }
    ensures others { OnOk result ((v : ℕ) → v ≢ vertex → edges_of graph.new v ≡ edges_of graph.old v) }
    ensures drives { OnOk result (Drives graph.old driven.old graph.new driven.new vertex edges.now) }
{
    if driven[vertex as usize] {
        return Ok(());
    }
    graph.set(vertex, edges)?;
    driven[vertex as usize] = true;
    Ok(())
}

/// The vertices that an expression over the names of an instance reads.
fn reads_of(alloc: Global, numbers: &NameMap<u32>, expr: &Expr) -> Result<Vec<u32>, NoMemory>
    ensures within { IfOk result (λ read. (g : graphs.Graph) → AreSignals (length g) (value_of numbers.now) → EachOf (λ v. v < length g) read.items) }
    ensures stand { IfOk result (λ read. (signals : ℕ) (g : graphs.Graph) → AreSignals signals (value_of numbers.now)
        → StandFor signals g (value_of numbers.now) read.items (tree_of (expr_of expr.now))) }
{
    let mut read = Vec::new(alloc);
    read_expr(alloc, numbers, expr, &mut read)?;
    Ok(read)
}

/// Drives a signal's vertex by an expression over the names of an instance, unless its driver was met before.
pub(crate) fn drive_by(
    alloc: Global,
    graph: &mut Graph,
    driven: &mut [bool],
    vertex: u32,
    numbers: &NameMap<u32>,
    expr: &Expr,
) -> Result<(), NoMemory>
    requires graph { IsGraph graph.old }
    requires vertex { vertex < length graph.old }
    requires marked { vertex < length driven.old }
    requires numbers { AreSignals (length graph.old) (value_of numbers.now) }
    ensures count { length graph.new ≡ length graph.old }
    ensures graph { OnOk result (IsGraph graph.new) }
    ensures drives { OnOk result (DrivesBy graph.old driven.old graph.new driven.new vertex (value_of numbers.now) (tree_of (expr_of expr.now))) }
    ensures others { OnOk result ((v : ℕ) → v ≢ vertex → edges_of graph.new v ≡ edges_of graph.old v) }
{
    let read = reads_of(alloc, numbers, expr)?;
    drive(graph, driven, vertex, &read)?;
    Ok(())
}

/// Drives the signal of a name by the version that the name ends with, or by nothing where it has none, unless its driver
/// was met before. A name without a number is no signal.
fn drive_name(
    graph: &mut Graph,
    driven: &mut [bool],
    numbers: &NameMap<u32>,
    ends: &VersionMap,
    name: &[u8],
) -> Result<(), NoMemory>
    requires graph { IsGraph graph.old }
    requires numbers { AreSignals (length graph.old) (value_of numbers.now) }
    requires marked { AreSignals (length driven.old) (value_of numbers.now) }
    requires version { AreVertices (length graph.old) (option_map single (version_of ends.now name.now)) }
    ensures others { OnOk result (KeepsOthers graph.old graph.new (value_of numbers.now)) }
    ensures drives { OnOk result (DrivesName graph.old driven.old graph.new driven.new (value_of numbers.now) name.now (version_of ends.now name.now)) }
{
    let Some(vertex) = numbers.get(name) else {
        return Ok(());
    };
    match ends.get(name) {
        Some(version) => drive(graph, driven, vertex, &[version])?,
        None => drive(graph, driven, vertex, &[])?,
    }
    Ok(())
}

/// The same of names in order.
fn drive_names(
    graph: &mut Graph,
    driven: &mut [bool],
    numbers: &NameMap<u32>,
    ends: &VersionMap,
    names: &[&[u8]],
) -> Result<(), NoMemory>
    requires graph { IsGraph graph.old }
    requires numbers { AreSignals (length graph.old) (value_of numbers.now) }
    requires marked { AreSignals (length driven.old) (value_of numbers.now) }
    requires versions { (x : Name) → has (names_at names.now) x ≡ true → AreVertices (length graph.old) (option_map single (version_of ends.now x)) }
    ensures others { OnOk result (KeepsOthers graph.old graph.new (value_of numbers.now)) }
    ensures drives { OnOk result (DrivesNames graph.old driven.old graph.new driven.new (value_of numbers.now) (has (names_at names.now))
        (version_of ends.now)) }
{
    for name in names {
        drive_name(graph, driven, numbers, ends, name)?;
    }
    Ok(())
}

/// Drives the signals that a block with these terms assigns by the versions that it ends with, unless their drivers were met before.
#[tactic(auto, using(crate::proofs::Layers::layered_block))]
pub(crate) fn drive_block(
    alloc: Global,
    graph: &mut Graph,
    driven: &mut [bool],
    numbers: &NameMap<u32>,
    block: &Block,
    terms: &BlockTerms,
) -> Result<(), NoMemory>
    requires graph { IsGraph graph.old }
    requires numbers { AreSignals (length graph.old) (value_of numbers.now) }
    requires marked { AreSignals (length driven.old) (value_of numbers.now) }
    ensures graph { OnOk result (IsGraph graph.new) }
    ensures longer { OnOk result (length graph.old ≤ length graph.new) }
    ensures drives { OnOk result (DrivesBlock graph.old driven.old graph.new driven.new (value_of numbers.now) terms.now (block_of block.now)) }
    ensures layers { OnOk result (StaysLayered graph.old graph.new (value_of numbers.now)) }
{
    let names = assigned_in(alloc, block.clocked, &block.body)?;
    let ends = follow_block(alloc, graph, numbers, terms, &names)?;
    drive_names(graph, driven, numbers, &ends, &names)?;
    Ok(())
}

/// The same of an instance's blocks in order, each with its terms.
pub(crate) fn drive_blocks(
    alloc: Global,
    graph: &mut Graph,
    driven: &mut [bool],
    numbers: &NameMap<u32>,
    blocks: &[Block],
    terms: &[BlockTerms],
) -> Result<(), NoMemory>
    requires graph { IsGraph graph.old }
    requires numbers { AreSignals (length graph.old) (value_of numbers.now) }
    requires marked { AreSignals (length driven.old) (value_of numbers.now) }
    requires count { length blocks.now ≤ length terms.now }
    ensures graph { OnOk result (IsGraph graph.new) }
    ensures longer { OnOk result (length graph.old ≤ length graph.new) }
    ensures drives { OnOk result (DrivesBlocks graph.old driven.old graph.new driven.new (value_of numbers.now) terms.now (map block_of blocks.now)) }
    ensures layers { OnOk result (StaysLayered graph.old graph.new (value_of numbers.now)) }
{
    for place in 0..blocks.len() {
        drive_block(alloc, graph, driven, numbers, &blocks[place], &terms[place])?;
    }
    Ok(())
}

/// Drives an input of a child by what is connected to it, unless its driver was met before. A port that is no signal of the
/// child is passed over.
fn drive_conn(
    alloc: Global,
    graph: &mut Graph,
    driven: &mut [bool],
    child: &NameMap<u32>,
    parent: &NameMap<u32>,
    conn: &Conn,
) -> Result<(), NoMemory>
    requires graph { IsGraph graph.old }
    requires parent { AreSignals (length graph.old) (value_of parent.now) }
    requires child { AreSignals (length graph.old) (value_of child.now) }
    requires marked { AreSignals (length driven.old) (value_of child.now) }
    ensures graph { OnOk result (IsGraph graph.new) }
    ensures count { length graph.new ≡ length graph.old }
    ensures drives { OnOk result (DrivesConn graph.old driven.old graph.new driven.new (value_of child.now) (value_of parent.now) (conn_of conn.now)) }
    ensures layers { OnOk result (StaysLayered graph.old graph.new (value_of child.now)) }
{
    match child.get(conn.port.bytes()) {
        Some(vertex) => drive_by(alloc, graph, driven, vertex, parent, &conn.value),
        None => Ok(()),
    }
}

/// The same of a child's connections in order.
pub(crate) fn drive_conns(
    alloc: Global,
    graph: &mut Graph,
    driven: &mut [bool],
    child: &NameMap<u32>,
    parent: &NameMap<u32>,
    conns: &[Conn],
) -> Result<(), NoMemory>
    requires graph { IsGraph graph.old }
    requires parent { AreSignals (length graph.old) (value_of parent.now) }
    requires child { AreSignals (length graph.old) (value_of child.now) }
    requires marked { AreSignals (length driven.old) (value_of child.now) }
    ensures graph { OnOk result (IsGraph graph.new) }
    ensures count { length graph.new ≡ length graph.old }
    ensures drives { OnOk result (DrivesConns graph.old driven.old graph.new driven.new (value_of child.now) (value_of parent.now) (map conn_of conns.now)) }
    ensures layers { OnOk result (StaysLayered graph.old graph.new (value_of child.now)) }
{
    for conn in conns {
        drive_conn(alloc, graph, driven, child, parent, conn)?;
    }
    Ok(())
}

/// Drives a signal that is an output of a child by that output, unless its driver was met before.
pub(crate) fn drive_output(
    graph: &mut Graph,
    driven: &mut [bool],
    child: &NameMap<u32>,
    parent: &NameMap<u32>,
    name: &[u8],
    output: &[u8],
) -> Result<(), NoMemory>
    requires graph { IsGraph graph.old }
    requires parent { AreSignals (length graph.old) (value_of parent.now) }
    requires child { AreSignals (length graph.old) (value_of child.now) }
    requires marked { AreSignals (length driven.old) (value_of parent.now) }
    ensures graph { OnOk result (IsGraph graph.new) }
    ensures count { length graph.new ≡ length graph.old }
    ensures drives { OnOk result (DrivesOutput graph.old driven.old graph.new driven.new (value_of child.now) (value_of parent.now) name.now output.now) }
    ensures layers { OnOk result (StaysLayered graph.old graph.new (value_of parent.now)) }
{
    let Some(vertex) = parent.get(name) else {
        return Ok(());
    };
    match child.get(output) {
        Some(source) => drive(graph, driven, vertex, &[source])?,
        None => drive(graph, driven, vertex, &[])?,
    }
    Ok(())
}
