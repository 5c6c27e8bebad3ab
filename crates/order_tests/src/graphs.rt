//! Graphs with their orders and cycles, worked by hand, and deep ones, which no recursion may walk.

use graph_order::{Graph, GraphFault, order_of};
use std::alloc::Global;
use std::test::Fail;
use text_core::NoMemory;

/// How many vertices a deep graph has.
const DEEP: u32 = 200_000;

/// A graph of so many vertices: vertices with two edges each, where they go; and what may be told of it. A cycle is told from its
/// least vertex on, and where a graph has several, each of them may be.
type Case = (u32, &'static [(u32, u32, u32)], &'static [&'static str]);

static CASES: [Case; 11] = [
    (1, &[(0, 0, 0)], &["cycle 0"]),
    (2, &[(0, 1, 1), (1, 0, 0)], &["cycle 0 1"]),
    (
        5,
        &[(0, 1, 2), (1, 3, 3), (2, 4, 3), (4, 2, 2)],
        &["cycle 2 4"],
    ),
    (
        4,
        &[(3, 2, 1), (2, 3, 0), (1, 0, 3)],
        &["cycle 2 3", "cycle 1 3"],
    ),
    (
        6,
        &[(0, 5, 4), (5, 4, 3), (4, 3, 2), (3, 2, 5), (2, 1, 1)],
        &["cycle 3 5", "cycle 3 5 4"],
    ),
    (
        3,
        &[(0, 1, 2), (1, 2, 0), (2, 0, 1)],
        &[
            "cycle 0 1",
            "cycle 0 2",
            "cycle 1 2",
            "cycle 0 1 2",
            "cycle 0 2 1",
        ],
    ),
    (
        7,
        &[(6, 5, 5), (5, 4, 4), (4, 6, 3), (3, 1, 2), (1, 3, 0)],
        &["cycle 4 6 5", "cycle 1 3"],
    ),
    (
        4,
        &[(0, 2, 1), (1, 3, 3), (2, 3, 2), (3, 1, 1)],
        &["cycle 2", "cycle 1 3"],
    ),
    (
        6,
        &[(0, 3, 3), (3, 5, 5), (5, 2, 2), (2, 3, 3)],
        &["cycle 2 3 5"],
    ),
    (3, &[(1, 1, 1)], &["cycle 1"]),
    (4, &[(1, 0, 0), (2, 0, 0), (3, 1, 2)], &["order 0 1 2 3"]),
];

/// A graph of so many vertices without edges.
fn vertices(alloc: Global, count: u32) -> Result<Graph, NoMemory> {
    let mut graph = Graph::new(alloc);
    for _ in 0..count {
        graph.add(&[])?;
    }
    Ok(graph)
}

/// The graph of a case. None where an edge joins no vertices.
fn graph_of(alloc: Global, case: &Case) -> Result<Option<Graph>, NoMemory> {
    let mut graph = vertices(alloc, case.0)?;
    for (from, one, other) in case.1 {
        let many = graph.count();
        if *from >= many || *one >= many || *other >= many {
            return Ok(None);
        }
        graph.set(*from, &[*one, *other])?;
    }
    Ok(Some(graph))
}

/// Gives a vertex one edge in place of those that it has. False where one of both is no vertex.
fn join(graph: &mut Graph, from: u32, to: u32) -> Result<bool, NoMemory> {
    if from < graph.count() && to < graph.count() {
        graph.set(from, &[to])?;
        return Ok(true);
    }
    Ok(false)
}

/// What is told of a graph: its order, or its cycle behind a word.
fn told(alloc: Global, graph: &Graph) -> Result<String, NoMemory> {
    let (word, vertices) = match order_of(alloc, graph) {
        Ok(order) => ("order", order),
        Err(GraphFault::Cycle(cycle)) => ("cycle", cycle),
        Err(GraphFault::NoMemory) => return Err(NoMemory),
    };
    let mut told = format!(in alloc; "{word}")?;
    for vertex in &vertices {
        let one = format!(in alloc; " {vertex}")?;
        told.push_str(&one)?;
    }
    Ok(told)
}

/// What is told of a graph that is made with its edges.
fn told_with_edges(alloc: Global) -> Result<String, NoMemory> {
    let mut graph = Graph::new(alloc);
    let sink = graph.add(&[])?;
    let left = graph.add(&[sink])?;
    let right = graph.add(&[sink])?;
    graph.add(&[left, right, sink])?;
    told(alloc, &graph)
}

#[test]
fn orders_and_cycles_are_those_worked_by_hand(rt: HostRuntime) -> Result<(), Fail> {
    for (i, case) in CASES.iter().enumerate() {
        let Ok(Some(graph)) = graph_of(rt.alloc(), case) else {
            return Err("an edge joins vertices".into());
        };
        let Ok(found) = told(rt.alloc(), &graph) else {
            return Err("memory lasts".into());
        };
        assert!(rt; case.2.contains(&found.as_str()), "graph {i}: {found}");
    }
    assert!(rt;
        matches!(told_with_edges(rt.alloc()), Ok(found) if found.as_str() == "order 0 1 2 3")
    );
    Ok(())
}

/// Each vertex of a chain has an edge to the next one, and the first one is looked at first. Closed, the cycle is all of it, from the
/// least vertex on.
#[test]
fn a_deep_chain_has_an_order_and_a_deep_ring_is_a_cycle(rt: HostRuntime) -> Result<(), Fail> {
    let Ok(mut graph) = vertices(rt.alloc(), DEEP) else {
        return Err("memory lasts".into());
    };
    for i in 1..DEEP {
        assert!(rt; matches!(join(&mut graph, i - 1, i), Ok(true)));
    }
    let Ok(order) = order_of(rt.alloc(), &graph) else {
        return Err("a chain has an order")?;
    };
    assert!(rt; matches!(join(&mut graph, DEEP - 1, 0), Ok(true)));
    let Err(GraphFault::Cycle(cycle)) = order_of(rt.alloc(), &graph) else {
        return Err("a ring has a cycle")?;
    };
    assert!(rt; order.len() == DEEP as usize && cycle.len() == DEEP as usize);
    for (i, vertex) in cycle.iter().enumerate() {
        assert!(rt; *vertex as usize == i, "place {i} of the cycle");
    }
    for (i, vertex) in order.iter().rev().enumerate() {
        assert!(rt;
            *vertex as usize == i,
            "place {i} from the last of the order"
        );
    }
    Ok(())
}
