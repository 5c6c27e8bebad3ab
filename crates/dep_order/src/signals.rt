//! Signals in an order in which each is computed after what it needs, with the versions of a block between them left out.

ghost use Rattle.std.specs.Prelude.{◌≡◌, ◌≤◌, length, IfErr, IfOk};
ghost use Rattle.dep_order.specs.Reaching.{IsLayered};
ghost use Rattle.dep_order.specs.Signals.{signals_in, IsSignalOrder, TellsSignalCycle};

use graph_order::{Graph, GraphFault, order_of};
use std::alloc::{AllocError, Global};

/// The signals of a list of vertices, in its order.
fn signals_in(alloc: Global, signals: u32, vertices: &[u32]) -> Result<Vec<u32>, AllocError>
    ensures { IfOk result (λ kept. kept.items ≡ signals_in signals vertices.now) }
{
    let mut kept = Vec::new(alloc);
    for v in vertices {
        if *v < signals {
            kept.push(*v)?;
        }
    }
    Ok(kept)
}

/// The signals of a graph of signals and versions, each once and after those that are reached from it through versions
/// alone; or a cycle of signals, each reached in this way from the one before it.
///
/// The vertices below `signals` are signals. Versions have edges to vertices before them alone.
#[tactic(auto, using(crate::proofs::Contracted::order_of_signals, crate::proofs::Contracted::cycle_of_signals))]
pub fn order_signals(alloc: Global, graph: &Graph, signals: u32) -> Result<Vec<u32>, GraphFault>
    requires signals { signals ≤ length graph.now }
    requires layered { IsLayered signals graph.now }
    ensures order { IfOk result (λ order. IsSignalOrder signals graph.now order.items) }
    ensures cycle { IfErr result (TellsSignalCycle signals graph.now) }
{
    match order_of(alloc, graph) {
        Ok(order) => Ok(signals_in(alloc, signals, &order)?),
        Err(GraphFault::Cycle(cycle)) => Err(GraphFault::Cycle(signals_in(
            alloc, signals, &cycle,
        )?)),
        Err(GraphFault::NoMemory) => Err(GraphFault::NoMemory),
    }
}
