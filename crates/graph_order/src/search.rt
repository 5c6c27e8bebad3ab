//! A search in depth without recursion. A vertex is on the path, finished, or not met; an edge to one on the path closes a cycle.

ghost use Rattle.std.specs.Prelude.{◌≡◌, ◌≢◌, ◌≤◌, ◌<◌, ◌+◌, ◌*◌, [], ◌∷◌, ◌++◌, length, replicate, take, slice_set, slice_index, MatchBool, IfSome, IfNone, IfOk, IfErr, OnOk};
ghost use Rattle.list_core.specs.Lists.{EachOf};
ghost use Rattle.graph_order.specs.Graphs.{edges_of, HasEdge, IsGraph};
ghost use Rattle.graph_order.specs.Search.{mark_of, news, ArePassed, Searched, StayMarked};
ghost use Rattle.graph_order.specs.Orders.{IsOrder};
ghost use Rattle.graph_order.specs.Faults.{TellsCycle};
ghost use Rattle.graph_order.specs.declared.search.Mark.TheVariants.{New, Begun, Finished};

use crate::cycle::cycle_of;
use crate::{Graph, GraphFault};
use std::alloc::{AllocError, Global};

/// How far a vertex is.
#[derive(Clone, Copy)]
pub(crate) enum Mark {
    /// Not met yet.
    New,
    /// On the path.
    Begun,
    /// In the order.
    Finished,
}

/// A search, depth first.
#[derive(Drop)]
pub(crate) struct Search {
    /// The mark of each vertex.
    pub(crate) marks: Vec<Mark>,
    /// How many of its edges each vertex has passed over: they lead to finished ones.
    pub(crate) passed: Vec<usize>,
    /// Begun vertices, each with an edge to the next.
    pub(crate) path: Vec<u32>,
    /// Finished vertices, each after those that it has an edge to.
    pub(crate) order: Vec<u32>,
}

impl Search {
    /// A search that has met no vertex of a graph of so many.
    pub(crate) fn new(alloc: Global, count: usize) -> Result<Search, AllocError>
        ensures marks { IfOk result (λ s. s.marks.items ≡ replicate count New) }
        ensures passed { IfOk result (λ s. s.passed.items ≡ replicate count 0) }
        ensures path { IfOk result (λ s. s.path.items ≡ []) }
        ensures order { IfOk result (λ s. s.order.items ≡ []) }
    {
        Ok(Search {
            marks: vec![in alloc; Mark::New; count]?,
            passed: vec![in alloc; 0; count]?,
            path: Vec::new(alloc),
            order: Vec::new(alloc),
        })
    }

    /// The mark of a vertex.
    pub(crate) fn mark(&self, vertex: u32) -> Mark
        requires { vertex < length self.now.marks.items }
        ensures { result ≡ mark_of self.now.marks.items vertex }
    {
        self.marks[vertex as usize]
    }

    /// Whether a vertex is finished.
    fn is_finished(&self, vertex: u32) -> bool
        requires { vertex < length self.now.marks.items }
        ensures { MatchBool result (mark_of self.now.marks.items vertex ≡ Finished) (mark_of self.now.marks.items vertex ≢ Finished) }
    {
        match self.mark(vertex) {
            Mark::Finished => true,
            Mark::New | Mark::Begun => false,
        }
    }

    /// The place of the first among those that a vertex has an edge to which is not finished, from a place on.
    fn unfinished(&self, next: &[u32], from: usize) -> Option<usize>
        requires passed { EachOf (λ w. mark_of self.now.marks.items w ≡ Finished) (take from next.now) }
        requires vertices { EachOf (λ w. w < length self.now.marks.items) next.now }
        ensures within { IfSome result (λ k. k < length next.now) }
        ensures unfinished { IfSome result (λ k. mark_of self.now.marks.items (slice_index next.now k) ≢ Finished) }
        ensures passed { IfSome result (λ k. EachOf (λ w. mark_of self.now.marks.items w ≡ Finished) (take k next.now)) }
        ensures all { IfNone result (EachOf (λ w. mark_of self.now.marks.items w ≡ Finished) next.now) }
    {
        for place in from..next.len() {
            if !self.is_finished(next[place]) {
                return Some(place);
            }
        }
        None
    }

    /// Passes over the finished ones among those that a vertex has an edge to, and gives the first that is not.
    fn ahead(&mut self, graph: &Graph, vertex: u32) -> Option<u32>
        requires vertex { vertex < length graph.now }
        requires marked { length self.old.marks.items ≡ length graph.now }
        requires counted { length self.old.passed.items ≡ length graph.now }
        requires passed { ArePassed graph.now self.old.marks.items self.old.passed.items }
        ensures marks { self.new.marks.items ≡ self.old.marks.items }
        ensures path { self.new.path.items ≡ self.old.path.items }
        ensures order { self.new.order.items ≡ self.old.order.items }
        ensures counted { length self.new.passed.items ≡ length graph.now }
        ensures passed { ArePassed graph.now self.old.marks.items self.new.passed.items }
        ensures edge { IfSome result (HasEdge graph.now vertex) }
        ensures unfinished { IfSome result (λ w. mark_of self.old.marks.items w ≢ Finished) }
        ensures all { IfNone result (EachOf (λ w. mark_of self.old.marks.items w ≡ Finished) (edges_of graph.now vertex)) }
    {
        let next = graph.next(vertex);
        let from = self.passed[vertex as usize];
        let place = self.unfinished(next, from)?;
        self.passed[vertex as usize] = place;
        Some(next[place])
    }

    /// Begins a vertex.
    fn begin(&mut self, vertex: u32) -> Result<(), AllocError>
        requires { vertex < length self.old.marks.items }
        ensures marks { OnOk result (self.new.marks.items ≡ slice_set self.old.marks.items vertex Begun) }
        ensures passed { self.new.passed.items ≡ self.old.passed.items }
        ensures path { OnOk result (self.new.path.items ≡ self.old.path.items ++ vertex ∷ []) }
        ensures order { self.new.order.items ≡ self.old.order.items }
    {
        self.path.push(vertex)?;
        self.marks[vertex as usize] = Mark::Begun;
        Ok(())
    }

    /// Finishes a vertex.
    fn finish(&mut self, vertex: u32) -> Result<(), AllocError>
        requires { vertex < length self.old.marks.items }
        ensures marks { OnOk result (self.new.marks.items ≡ slice_set self.old.marks.items vertex Finished) }
        ensures passed { self.new.passed.items ≡ self.old.passed.items }
        ensures path { self.new.path.items ≡ self.old.path.items }
        ensures order { OnOk result (self.new.order.items ≡ self.old.order.items ++ vertex ∷ []) }
    {
        self.order.push(vertex)?;
        self.marks[vertex as usize] = Mark::Finished;
        Ok(())
    }

    /// A step from the last vertex of the path, which was taken from it: one that it has an edge to is begun; or a cycle
    /// is met; or it is finished, where all that it has an edge to are.
    fn step(&mut self, alloc: Global, graph: &Graph, vertex: u32) -> Result<(), GraphFault>
        requires graph { IsGraph graph.now }
        requires searched { Searched graph.now self.old.marks.items self.old.passed.items (self.old.path.items ++ vertex ∷ []) self.old.order.items }
        ensures searched { OnOk result (Searched graph.now self.new.marks.items self.new.passed.items self.new.path.items self.new.order.items) }
        ensures cycle { IfErr result (TellsCycle graph.now) }
        ensures stay { OnOk result (StayMarked self.old.marks.items self.new.marks.items) }
        ensures less { OnOk result (2 * news self.new.marks.items + length self.new.path.items < 2 * news self.old.marks.items +
            (length self.old.path.items + 1)) }
    {
        let Some(next) = self.ahead(graph, vertex) else {
            self.finish(vertex)?;
            return Ok(());
        };
        self.path.push(vertex)?;
        match self.mark(next) {
            Mark::New => {
                self.begin(next)?;
                Ok(())
            }
            Mark::Begun | Mark::Finished => Err(GraphFault::Cycle(cycle_of(
                alloc, &self.path, next,
            )?)),
        }
    }

    /// Begins a new vertex, and searches until all that were begun are finished.
    fn visit(&mut self, alloc: Global, graph: &Graph, vertex: u32) -> Result<(), GraphFault>
        requires graph { IsGraph graph.now }
        requires vertex { vertex < length graph.now }
        requires new { mark_of self.old.marks.items vertex ≡ New }
        requires path { self.old.path.items ≡ [] }
        requires searched { Searched graph.now self.old.marks.items self.old.passed.items [] self.old.order.items }
        ensures path { OnOk result (self.new.path.items ≡ []) }
        ensures searched { OnOk result (Searched graph.now self.new.marks.items self.new.passed.items [] self.new.order.items) }
        ensures cycle { IfErr result (TellsCycle graph.now) }
        ensures stay { OnOk result (StayMarked self.old.marks.items self.new.marks.items) }
        ensures met { OnOk result (mark_of self.new.marks.items vertex ≢ New) }
    {
        self.begin(vertex)?;
        while let Some(last) = self.path.pop() {
            self.step(alloc, graph, last)?;
        }
        Ok(())
    }

    /// Visits the vertices that no visit before met.
    pub(crate) fn visit_all(&mut self, alloc: Global, graph: &Graph) -> Result<(), GraphFault>
        requires path { self.old.path.items ≡ [] }
        requires searched { Searched graph.now self.old.marks.items self.old.passed.items [] self.old.order.items }
        ensures order { OnOk result (IsOrder graph.now self.new.order.items) }
        ensures cycle { IfErr result (TellsCycle graph.now) }
    {
        for vertex in 0..graph.count() {
            match self.mark(vertex) {
                Mark::New => self.visit(alloc, graph, vertex)?,
                Mark::Begun | Mark::Finished => {}
            }
        }
        Ok(())
    }
}
