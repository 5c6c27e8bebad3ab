//! The names of the nodes of a net.

ghost use Rattle.std.specs.Prelude.{◌≡◌, ◌<◌, ◌^◌, IfOk, length};
ghost use Rattle.net_core.specs.Nodes.{shape_of, shape_at, width_at};
ghost use Rattle.trim_core.specs.Named.{numbered_name, name_of, named, node_names};

use bv_core::NodeId;
use net_core::{Net, Node};
use std::alloc::Global;
use symtab::NodeName;
use text_core::{NoMemory, Text};

/// The name of a node by its number.
fn numbered_name(alloc: Global, number: u64) -> Result<Text, NoMemory>
    ensures { IfOk result (λ name. name ≡ numbered_name number) }
{
    let name = format!(in alloc; "_{number}")?;
    Text::new(alloc, name.as_bytes())
}

/// The name of a node: that of an input, and otherwise its number.
fn name_of(alloc: Global, number: u64, node: &Node) -> Result<Text, NoMemory>
    ensures { IfOk result (λ name. name ≡ name_of number (shape_of node.now)) }
{
    match node {
        Node::Input(name, _) => Text::new(alloc, name.bytes()),
        _ => numbered_name(alloc, number),
    }
}

/// The name of a node with its width.
fn named(alloc: Global, net: &Net, number: u64) -> Result<NodeName, NoMemory>
    requires { number < length net.now.nodes }
    ensures { IfOk result (λ node. node ≡ named net.now.nodes (number, shape_at net.now.nodes number)) }
{
    let id = NodeId(number);
    Ok(NodeName {
        name: name_of(alloc, number, net.node(id))?,
        width: net.width(id),
    })
}

/// The names of all nodes of a net, in order, with their widths.
pub(crate) fn node_names(alloc: Global, net: &Net) -> Result<Vec<NodeName>, NoMemory>
    ensures names { IfOk result (λ names. names.items ≡ node_names net.now.nodes) }
    ensures few { length net.now.nodes < 2 ^ 64 }
{
    let mut names = Vec::new(alloc);
    for number in 0..net.count() {
        names.push(named(alloc, net, number)?)?;
    }
    Ok(names)
}
