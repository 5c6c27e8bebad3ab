//! One cycle of a net: each node once, in order of their numbers, written in place. Nothing is looked up by name.

ghost use Rattle.std.specs.Prelude.{◌≡◌, ◌<◌, All, length, map};
ghost use Rattle.net_core.specs.Nodes.{shape_of};
ghost use Rattle.net_core.specs.Nets.{IsNet};
ghost use Rattle.sim_core.specs.Leaves.{inputs_of, registers_of};
ghost use Rattle.sim_core.specs.Given.{HaveWidths};
ghost use Rattle.sim_core.specs.Steps.{bits_at, IsReady, step_value, inputs_left, registers_left};
ghost use Rattle.sim_core.specs.State.{AreSolved};

use bv_core::{Bv, NodeId, apply1, apply2, choose};
use net_core::{Net, Node};

/// The value at a node's place.
pub(crate) fn value_at(values: &[Bv], id: NodeId) -> Bv
    requires { id.0 < length values.now }
    ensures { result ≡ bits_at values.now id.0 }
{
    values[id.0 as usize]
}

/// The value of a node whose operands have these values, and the inputs and registers that it leaves of these: an input
/// and a register take the first.
fn step<'a>(
    node: &Node,
    values: &[Bv],
    inputs: &'a [Bv],
    registers: &'a [Bv],
) -> (Bv, &'a [Bv], &'a [Bv])
    requires { IsReady values.now inputs.now registers.now (shape_of node.now) }
    ensures value { result.0 ≡ step_value values.now inputs.now registers.now (shape_of node.now) }
    ensures inputs { result.1.now ≡ inputs_left inputs.now (shape_of node.now) }
    ensures registers { result.2.now ≡ registers_left registers.now (shape_of node.now) }
{
    match node {
        Node::Const(value) => (*value, inputs, registers),
        Node::Input(..) => (inputs[0], &inputs[1..], registers),
        Node::Reg { .. } => (registers[0], inputs, &registers[1..]),
        Node::One(op, a) => (apply1(*op, value_at(values, *a)), inputs, registers),
        Node::Two(op, a, b) => {
            let value = apply2(*op, value_at(values, *a), value_at(values, *b));
            (value, inputs, registers)
        }
        Node::Mux(c, a, b) => {
            let value = choose(
                value_at(values, *c),
                value_at(values, *a),
                value_at(values, *b),
            );
            (value, inputs, registers)
        }
    }
}

/// Writes the value of each node, in the order of their numbers, for these inputs and registers. Takes time linear in
/// the nodes.
#[tactic(auto, using(crate::proofs::Walking::none_walked, crate::proofs::Walking::all_walked, crate::proofs::Walking::ready, crate::proofs::Walking::walked))]
pub(crate) fn solve(net: &Net, inputs: &[Bv], registers: &[Bv], values: &mut [Bv])
    requires net { IsNet net.now }
    requires long { length values.old ≡ length net.now.nodes }
    requires inputs { HaveWidths (inputs_of net.now.nodes) inputs.now }
    requires registers { HaveWidths (registers_of net.now.nodes) registers.now }
    ensures { AreSolved net.now.nodes inputs.now registers.now values.new }
{
    let (mut inputs, mut registers) = (inputs, registers);
    for id in 0..net.count() {
        let node = net.node(NodeId(id));
        let (value, later_inputs, later_registers) = step(node, values, inputs, registers);
        values[id as usize] = value;
        (inputs, registers) = (later_inputs, later_registers);
    }
}

/// Gives each register the value of the node of its next value.
pub(crate) fn take_next(registers: &mut [Bv], sources: &[usize], values: &[Bv])
    requires long { length registers.old ≡ length sources.now }
    requires within { All (λ source. source < length values.now) sources.now }
    ensures { registers.new ≡ map (bits_at values.now) sources.now }
{
    for (place, source) in sources.iter().enumerate() {
        registers[place] = values[*source];
    }
}
