//! Which input of a net is which column of a stimulus. A net has only the inputs that something needs.

ghost use Rattle.std.specs.Prelude.{◌≡◌, ℕ, ◌<◌, All, IsTrue, IfOk, IfSome, List, length, map, option_to_list};
ghost use Rattle.std.specs.List.{list_any, zip};
ghost use Rattle.bv_core.specs.Value.{Bits};
ghost use Rattle.tree_core.specs.Tree.{Input};
ghost use Rattle.tree_core.specs.Fold.{same_origin};
ghost use Rattle.net_core.specs.Nodes.{TopInput, shape_of};
ghost use Rattle.sim_core.specs.Leaves.{input_in};
ghost use Rattle.sim_core.specs.Given.{value_beside};
ghost use Rattle.sim_core.specs.Steps.{bits_at};
ghost use Rattle.sim_hist.specs.Run.{InputsArePorts, port_origins};
ghost use Rattle.sim_hist.specs.Kept.{ArePicked};

use bv_core::{Bv, NodeId};
use design_core::Ports;
use net_core::{Net, Node};
use std::alloc::{AllocError, Global};
use text_core::Text;

/// Whether a port has this name and width.
fn is_port(port: &(Text, u8), name: &[u8], width: u8) -> bool
    ensures { result ≡ same_origin (Input port.now.0 port.now.1) (Input name.now width) }
{
    port.0.bytes() == name && port.1 == width
}

/// The first place of the port with this name and width.
fn place_of(ports: &[(Text, u8)], name: &[u8], width: u8) -> usize
    requires { IsTrue (list_any (λ o. same_origin o (Input name.now width)) (port_origins ports.now)) }
    ensures within { result < length ports.now }
    ensures value { (row : List Bits) → length row ≡ length ports.now
        → bits_at row result ≡ value_beside (zip (port_origins ports.now) row) (Input name.now width) }
{
    let mut place = 0;
    for port in ports {
        if is_port(port, name, width) {
            return place;
        }
        place += 1;
    }
    place
}

/// The column of an input. None where the node is none.
fn column_of(node: &Node, ports: &[(Text, u8)]) -> Option<usize>
    requires { (name : List ℕ) (width : ℕ) → shape_of node.now ≡ TopInput name width
        → IsTrue (list_any (λ o. same_origin o (Input name width)) (port_origins ports.now)) }
    ensures within { All (λ column. column < length ports.now) (option_to_list result) }
    ensures value { (row : List Bits) → length row ≡ length ports.now
        → map (bits_at row) (option_to_list result) ≡ map (value_beside (zip (port_origins ports.now) row)) (input_in (shape_of node.now)) }
{
    match node {
        Node::Input(name, width) => Some(place_of(ports, name.bytes(), *width)),
        _ => None,
    }
}

/// The columns of a net's inputs, in the order of their nodes' numbers. Takes time linear in the nodes, and in the inputs
/// times the ports.
pub(crate) fn columns(alloc: Global, net: &Net, ports: &Ports) -> Result<Vec<usize>, AllocError>
    requires { InputsArePorts net.now.nodes ports.now }
    ensures { IfOk result (λ found. ArePicked net.now ports.now found.items) }
{
    let mut found = Vec::new(alloc);
    let inputs = ports.inputs.items();
    for id in 0..net.count() {
        if let Some(column) = column_of(net.node(NodeId(id)), inputs) {
            found.push(column)?;
        }
    }
    Ok(found)
}

/// Takes from a row what stands in these columns.
pub(crate) fn pick(inputs: &mut [Bv], columns: &[usize], row: &[Bv])
    requires long { length inputs.old ≡ length columns.now }
    requires within { All (λ column. column < length row.now) columns.now }
    ensures { inputs.new ≡ map (bits_at row.now) columns.now }
{
    for (place, column) in columns.iter().enumerate() {
        inputs[place] = row[*column];
    }
}
