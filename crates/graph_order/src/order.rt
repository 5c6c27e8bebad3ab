//! An order of a graph or a cycle in it: the one call. `not_both` is why the answer needs no third case.

ghost use Rattle.std.specs.Prelude.{IfOk, IfErr};
ghost use Rattle.graph_order.specs.Orders.{IsOrder};
ghost use Rattle.graph_order.specs.Faults.{TellsCycle};

use crate::search::Search;
use crate::{Graph, GraphFault};
use std::alloc::Global;

/// All vertices of a graph, each once and after all that it has an edge to; or a cycle. A graph with a cycle has no
/// order (`not_both`), so the answer is an order exactly where there is no cycle, as long as memory lasts.
///
/// Takes time in proportion to the vertices and edges.
pub fn order_of(alloc: Global, graph: &Graph) -> Result<Vec<u32>, GraphFault>
    ensures order { IfOk result (λ order. IsOrder graph.now order.items) }
    ensures cycle { IfErr result (TellsCycle graph.now) }
{
    let mut search = Search::new(alloc, graph.count() as usize)?;
    search.visit_all(alloc, graph)?;
    Ok(search.order)
}
