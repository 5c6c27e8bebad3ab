//! The terms of a block as vertices of a graph, each with edges to those of its operands, and a leaf with one to its signal. So what a name
//! ends with stands for its tree: its signals are reached from the vertex of its term through vertices of terms alone.

ghost use Rattle.std.specs.Prelude.{◌≡◌, ◌≤◌, ℕ, length, IfOk, OnOk};
ghost use Rattle.tree_core.specs.Tree.{Leaf};
ghost use Rattle.graph_order.specs.Graphs.{IsGraph};
ghost use Rattle.names.specs.Known.{has};
ghost use Rattle.names.specs.Maps.{value_of};
ghost use Rattle.place_core.specs.Assigned.{names_at};
ghost use Rattle.block_net.specs.Terms.{AreNumbered, OperandsBelow};
ghost use Rattle.dep_order.specs.Blocks.{AreFollowed, AreSignals, EndIs, EndsStand, Grown, IsVersion, end_of, term_reads, version_of};

use crate::maps::VersionMap;
use crate::reading::read_name;
use block_net::{BlockTerms, Term};
use graph_order::Graph;
use names::NameMap;
use std::alloc::Global;
use text_core::NoMemory;

/// What a term reads, where the terms before it have these vertices.
fn term_reads(
    alloc: Global,
    numbers: &NameMap<u32>,
    vertices: &[u32],
    term: &Term,
) -> Result<Vec<u32>, NoMemory>
    requires { OperandsBelow (length vertices.now) term.now }
    ensures { IfOk result (λ read. read.items ≡ term_reads (value_of numbers.now) vertices.now term.now) }
{
    let mut read = Vec::new(alloc);
    match term {
        Term::Leaf(name) => {
            read_name(numbers, name.bytes(), &mut read)?;
            Ok(read)
        }
        Term::Value { .. } => Ok(read),
        Term::Unary(_, a) | Term::Zext(a, _) | Term::Slice(a, _, _) => {
            read.push(vertices[a.0])?;
            Ok(read)
        }
        Term::Binary(_, a, b) => {
            read.push(vertices[a.0])?;
            read.push(vertices[b.0])?;
            Ok(read)
        }
        Term::Mux(test, yes, no) => {
            read.push(vertices[test.0])?;
            read.push(vertices[yes.0])?;
            read.push(vertices[no.0])?;
            Ok(read)
        }
    }
}

/// Gives each term a vertex.
fn follow_terms(
    alloc: Global,
    graph: &mut Graph,
    numbers: &NameMap<u32>,
    terms: &[Term],
) -> Result<Vec<u32>, NoMemory>
    requires graph { IsGraph graph.old }
    requires numbers { AreSignals (length graph.old) (value_of numbers.now) }
    requires numbered { AreNumbered terms.now }
    ensures grown { OnOk result (Grown graph.old graph.new) }
    ensures graph { OnOk result (IsGraph graph.new) }
    ensures count { IfOk result (λ vertices. length vertices.items ≡ length terms.now) }
    ensures followed { IfOk result (λ vertices. AreFollowed (length graph.old) graph.new (value_of numbers.now) terms.now (length terms.now) vertices.items) }
{
    let mut vertices = Vec::new(alloc);
    for term in terms {
        let read = term_reads(alloc, numbers, &vertices, term)?;
        let vertex = graph.add(&read)?;
        vertices.push(vertex)?;
    }
    Ok(vertices)
}

/// A version that reads the signal of a name alone.
fn own_vertex(
    alloc: Global,
    graph: &mut Graph,
    numbers: &NameMap<u32>,
    name: &[u8],
) -> Result<u32, NoMemory>
    requires graph { IsGraph graph.old }
    requires numbers { AreSignals (length graph.old) (value_of numbers.now) }
    ensures grown { OnOk result (Grown graph.old graph.new) }
    ensures graph { OnOk result (IsGraph graph.new) }
    ensures version { IfOk result (λ v. IsVersion (length graph.old) graph.new (value_of numbers.now) v (Leaf name.now)) }
{
    let mut read = Vec::new(alloc);
    read_name(numbers, name, &mut read)?;
    let vertex = graph.add(&read)?;
    Ok(vertex)
}

/// The version that a name of a block ends with, where its terms have these vertices; none, where it has no tree. A name that was not
/// set reads its own signal.
fn end_version(
    alloc: Global,
    graph: &mut Graph,
    numbers: &NameMap<u32>,
    terms: &BlockTerms,
    vertices: &[u32],
    name: &[u8],
) -> Result<Option<u32>, NoMemory>
    requires graph { IsGraph graph.old }
    requires numbers { AreSignals (length graph.old) (value_of numbers.now) }
    requires count { length vertices.now ≡ length terms.now.terms }
    ensures grown { OnOk result (Grown graph.old graph.new) }
    ensures graph { OnOk result (IsGraph graph.new) }
    ensures end { IfOk result (λ version. (base : ℕ) → base ≤ length graph.old
        → AreFollowed base graph.old (value_of numbers.now) terms.now.terms (length terms.now.terms) vertices.now
        → EndIs base graph.new (value_of numbers.now) version (end_of terms.now name.now)) }
{
    match terms.name(name) {
        Some(Some(id)) => Ok(Some(vertices[id.0])),
        Some(None) => Ok(None),
        None => {
            let vertex = own_vertex(alloc, graph, numbers, name)?;
            Ok(Some(vertex))
        }
    }
}

/// The versions that names of a block end with, where its terms have these vertices.
fn end_versions(
    alloc: Global,
    graph: &mut Graph,
    numbers: &NameMap<u32>,
    terms: &BlockTerms,
    vertices: &[u32],
    names: &[&[u8]],
) -> Result<VersionMap, NoMemory>
    requires graph { IsGraph graph.old }
    requires numbers { AreSignals (length graph.old) (value_of numbers.now) }
    requires count { length vertices.now ≡ length terms.now.terms }
    ensures grown { OnOk result (Grown graph.old graph.new) }
    ensures graph { OnOk result (IsGraph graph.new) }
    ensures ends { IfOk result (λ ends. (base : ℕ) → base ≤ length graph.old
        → AreFollowed base graph.old (value_of numbers.now) terms.now.terms (length terms.now.terms) vertices.now
        → EndsStand base graph.new (value_of numbers.now) (has (names_at names.now)) terms.now (version_of ends)) }
{
    let mut ends = VersionMap::new(alloc);
    for name in names {
        let version = end_version(alloc, graph, numbers, terms, vertices, name)?;
        ends.set(alloc, name, version)?;
    }
    Ok(ends)
}

/// Follows a block with these terms: adds their vertices to the graph, and tells which one each of these names ends with.
pub(crate) fn follow_block(
    alloc: Global,
    graph: &mut Graph,
    numbers: &NameMap<u32>,
    terms: &BlockTerms,
    names: &[&[u8]],
) -> Result<VersionMap, NoMemory>
    requires graph { IsGraph graph.old }
    requires numbers { AreSignals (length graph.old) (value_of numbers.now) }
    ensures grown { OnOk result (Grown graph.old graph.new) }
    ensures graph { OnOk result (IsGraph graph.new) }
    ensures ends { IfOk result (λ ends. EndsStand (length graph.old) graph.new (value_of numbers.now) (has (names_at names.now)) terms.now (version_of ends)) }
{
    let vertices = follow_terms(alloc, graph, numbers, terms.terms())?;
    let ends = end_versions(alloc, graph, numbers, terms, &vertices, names)?;
    Ok(ends)
}
