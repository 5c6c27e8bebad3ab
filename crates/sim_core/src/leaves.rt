//! What a net has at its edges: inputs, the values that registers start with, and where their next values stand.

ghost use Rattle.std.specs.Prelude.{◌≡◌, ℕ, ◌<◌, [], ◌∷◌, IfOk, length, option_to_list, if◌then◌else◌};
ghost use Rattle.net_core.specs.Nodes.{shape_of};
ghost use Rattle.sim_core.specs.Leaves.{input_in, start_in, number_in, inputs_of, starts_of, sources_of};

use bv_core::{Bv, NodeId};
use net_core::{Net, Node, nexts_by_number};
use std::alloc::{AllocError, Global};

/// Whether a node is an input.
fn is_input(node: &Node) -> bool
    ensures { length (input_in (shape_of node.now)) ≡ (if result then 1 else 0) }
{
    matches!(node, Node::Input(..))
}

/// The value that a register starts with.
fn start_of(node: &Node) -> Option<Bv>
    ensures { option_to_list result ≡ start_in (shape_of node.now) }
{
    match node {
        Node::Reg { start, .. } => Some(*start),
        _ => None,
    }
}

/// Whether a node is a register.
fn is_register(node: &Node) -> bool
    ensures { (k : ℕ) → number_in k (shape_of node.now) ≡ (if result then k ∷ [] else []) }
{
    matches!(node, Node::Reg { .. })
}

/// How many inputs the nodes of a net have.
pub(crate) fn count_inputs(net: &Net) -> usize
    ensures { result ≡ length (inputs_of net.now.nodes) }
{
    let mut count = 0;
    for id in 0..net.count() {
        if is_input(net.node(NodeId(id))) {
            count += 1;
        }
    }
    count
}

/// The values that the registers start with, in the order of their nodes' numbers.
pub(crate) fn starts(alloc: Global, net: &Net) -> Result<Vec<Bv>, AllocError>
    ensures { IfOk result (λ found. found.items ≡ starts_of net.now.nodes) }
{
    let mut found = Vec::new(alloc);
    for id in 0..net.count() {
        if let Some(start) = start_of(net.node(NodeId(id))) {
            found.push(start)?;
        }
    }
    Ok(found)
}

/// The places of the nodes of the registers' next values, in the order of the registers' nodes' numbers.
pub(crate) fn sources(alloc: Global, net: &Net) -> Result<Vec<usize>, AllocError>
    ensures { IfOk result (λ found. found.items ≡ sources_of net.now) }
{
    let nexts = nexts_by_number(alloc, net)?;
    let mut found = Vec::new(alloc);
    for id in 0..net.count() {
        if is_register(net.node(NodeId(id))) {
            found.push(nexts[id as usize] as usize)?;
        }
    }
    Ok(found)
}
