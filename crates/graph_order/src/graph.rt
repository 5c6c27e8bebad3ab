//! A graph in two flat lists, so that its edges take one allocation.

ghost use Rattle.std.specs.Prelude.{◌≡◌, ◌<◌, ◌+◌, ◌^◌, [], ◌∷◌, ◌++◌, length, slice_set, OnOk, OnErr, IfOk};
ghost use Rattle.list_core.specs.Lists.{EachOf};
ghost use Rattle.graph_order.specs.Graphs.{edges_of, IsGraph};

use std::alloc::Global;
use std::marker::Model;
use text_core::NoMemory;

/// Where the edges of a vertex stand.
#[derive(Clone, Copy)]
pub struct Span {
    first: usize,
    past: usize,
}

/// A directed graph. Its vertices are numbered from 0; contracts see the list that has for each vertex those that it has
/// an edge to.
#[derive(Drop)]
pub struct Graph {
    ends: Vec<u32>,
    spans: Vec<Span>,
}

impl Model for Graph {
    ghost use Rattle.std.specs.Prelude.{List, ℕ};
    ghost use Rattle.graph_order.specs.Flat.{graph_of, IsFlat};

    ghost Value = { List (List ℕ) };

    ghost view = { λ g. graph_of g.ends.items g.spans.items };

    ghost invariant = { λ g. IsFlat g.ends.items g.spans.items };
}

impl Graph {
    /// No vertices. Takes no memory.
    pub fn new(alloc: Global) -> Graph
        ensures { result ≡ [] }
    {
        Graph {
            ends: Vec::new(alloc),
            spans: Vec::new(alloc),
        }
    }

    /// How many vertices there are.
    pub fn count(&self) -> u32
        ensures count { result ≡ length self.now }
        ensures edges { IsGraph self.now }
    {
        self.spans.len() as u32
    }

    /// Those that a vertex has an edge to, in the order in which they were given.
    pub fn next(&self, vertex: u32) -> &[u32]
        requires { vertex < length self.now }
        ensures next { result.now ≡ edges_of self.now vertex }
        ensures edges { EachOf (λ w. w < length self.now) result.now }
    {
        let span = self.spans[vertex as usize];
        &self.ends[span.first..span.past]
    }

    /// Adds a vertex with edges to vertices that were added before and to itself, and tells its number. A graph has less
    /// than 2^32 vertices: at that many it answers that memory ran out.
    pub fn add(&mut self, next: &[u32]) -> Result<u32, NoMemory>
        requires { EachOf (λ w. w < length self.old + 1) next.now }
        ensures number { IfOk result (λ v. v ≡ length self.old) }
        ensures added { OnOk result (self.new ≡ self.old ++ next.now ∷ []) }
        ensures same { OnErr result (self.new ≡ self.old) }
    {
        let number = self.spans.len();
        if number >= u32::MAX as usize {
            return Err(NoMemory);
        }
        let first = self.ends.len();
        self.ends.extend_from_slice(next)?;
        let past = self.ends.len();
        self.spans.push(Span { first, past })?;
        Ok(number as u32)
    }

    /// Gives a vertex these edges in place of those that it has.
    pub fn set(&mut self, vertex: u32, next: &[u32]) -> Result<(), NoMemory>
        requires vertex { vertex < length self.old }
        requires next { EachOf (λ w. w < length self.old) next.now }
        ensures changed { OnOk result (self.new ≡ slice_set self.old vertex next.now) }
        ensures same { OnErr result (self.new ≡ self.old) }
    {
        let first = self.ends.len();
        self.ends.extend_from_slice(next)?;
        let past = self.ends.len();
        self.spans[vertex as usize] = Span { first, past };
        Ok(())
    }
}
