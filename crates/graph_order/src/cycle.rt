//! A cycle out of the path on which it was met, told from its least vertex on.

ghost use Rattle.std.specs.Prelude.{◌≡◌, ◌≤◌, ◌<◌, ◌++◌, length, slice_index, take, drop, IfOk};
ghost use Rattle.list_core.specs.Lists.{EachOf};
ghost use Rattle.graph_order.specs.Search.{from_on, IsClosedBy, IsTurned};

use std::alloc::{AllocError, Global};

/// A path from a vertex of it on.
fn from_on(path: &[u32], vertex: u32) -> &[u32]
    ensures { result.now ≡ from_on vertex path.now }
{
    for (place, other) in path.iter().enumerate() {
        if *other == vertex {
            return &path[place..];
        }
    }
    &[]
}

/// The place of the least vertex.
fn least_place(vertices: &[u32]) -> usize
    requires { 0 < length vertices.now }
    ensures within { result < length vertices.now }
    ensures least { EachOf (λ w. slice_index vertices.now result ≤ w) vertices.now }
{
    let mut least = 0;
    for place in 0..vertices.len() {
        if vertices[place] < vertices[least] {
            least = place;
        }
    }
    least
}

/// A list from a place on, and then what is in front of the place.
fn turned_at(alloc: Global, vertices: &[u32], place: usize) -> Result<Vec<u32>, AllocError>
    requires { place ≤ length vertices.now }
    ensures { IfOk result (λ turned. turned.items ≡ drop place vertices.now ++ take place vertices.now) }
{
    let mut turned = Vec::with_capacity(alloc, vertices.len())?;
    turned.extend_from_slice(&vertices[place..])?;
    turned.extend_from_slice(&vertices[..place])?;
    Ok(turned)
}

/// A cycle from its least vertex on.
fn turned(alloc: Global, round: &[u32]) -> Result<Vec<u32>, AllocError>
    ensures { IfOk result (λ cycle. IsTurned round.now cycle.items) }
{
    if round.is_empty() {
        return Ok(Vec::new(alloc));
    }
    turned_at(alloc, round, least_place(round))
}

/// The cycle that a path closes by an edge from its last vertex to this one of it.
pub(crate) fn cycle_of(alloc: Global, path: &[u32], vertex: u32) -> Result<Vec<u32>, AllocError>
    ensures { IfOk result (λ cycle. IsClosedBy path.now vertex cycle.items) }
{
    turned(alloc, from_on(path, vertex))
}
