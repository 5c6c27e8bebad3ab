//! The lines of nodes and outputs.

ghost use Rattle.std.specs.Prelude.{◌≡◌, ◌<◌, ◌≤◌, ◌++◌, OnOk, length, is_some};
ghost use Rattle.net_core.specs.Nodes.{shape_of};
ghost use Rattle.net_core.specs.Nets.{IsNet, StandBeside};
ghost use Rattle.verilog_out.specs.Syntax.{Wire, Reg, Numbered};
ghost use Rattle.verilog_out.specs.Spelling.{range_text, declaration_text, assignment_text, edge_text, step_text};
ghost use Rattle.verilog_out.specs.Printed.{identifier_at, declaration_of, declared, expression_of, assigned, output_assigned, is_register, stepped};
ghost use Rattle.verilog_out.specs.Lines.{line_of, part_line};

use crate::expression::{push_literal, push_value};
use crate::name::{push_escaped, push_name, push_numbered};
use crate::part::Part;
use bv_core::{Bv, NodeId};
use net_core::{Net, Node};
use std::alloc::Global;
use text_core::{NoMemory, Text};

/// Adds the places of a width, which is 1 or more, from the highest down to 0.
pub(crate) fn push_range(alloc: Global, text: &mut Vec<u8>, width: u8) -> Result<(), NoMemory>
    requires { 1 ≤ width }
    ensures { OnOk result (text.new.items ≡ text.old.items ++ range_text width) }
{
    let highest = width - 1;
    let range = format!(in alloc; "[{highest}:0]")?;
    text.extend_from_slice(range.as_bytes())?;
    Ok(())
}

/// Adds the declaration of a wire.
fn push_wire(alloc: Global, text: &mut Vec<u8>, number: u64, width: u8) -> Result<(), NoMemory>
    requires { 1 ≤ width }
    ensures { OnOk result (text.new.items ≡ text.old.items ++ declaration_text (Wire width (Numbered number))) }
{
    text.extend_from_slice(b"  wire ")?;
    push_range(alloc, text, width)?;
    text.push(b' ')?;
    push_numbered(alloc, text, number)?;
    text.extend_from_slice(b";\n")?;
    Ok(())
}

/// Adds the declaration of a register with the value that it starts with.
fn push_register(
    alloc: Global,
    text: &mut Vec<u8>,
    number: u64,
    width: u8,
    start: Bv,
) -> Result<(), NoMemory>
    requires { 1 ≤ width }
    ensures { OnOk result (text.new.items ≡ text.old.items ++ declaration_text (Reg width (Numbered number) start)) }
{
    text.extend_from_slice(b"  reg ")?;
    push_range(alloc, text, width)?;
    text.push(b' ')?;
    push_numbered(alloc, text, number)?;
    text.extend_from_slice(b" = ")?;
    push_literal(alloc, text, start)?;
    text.extend_from_slice(b";\n")?;
    Ok(())
}

/// Adds the declaration of a node of this number and width, unless it is an input.
fn push_declaration_of(
    alloc: Global,
    text: &mut Vec<u8>,
    number: u64,
    width: u8,
    node: &Node,
) -> Result<(), NoMemory>
    requires { 1 ≤ width }
    ensures { OnOk result (text.new.items ≡ text.old.items ++ line_of declaration_text (declaration_of number width (shape_of node.now))) }
{
    match node {
        Node::Input(_, _) => Ok(()),
        Node::Reg { start, .. } => push_register(alloc, text, number, width, *start),
        Node::Const(_) => push_wire(alloc, text, number, width),
        Node::One(_, _) | Node::Two(_, _, _) | Node::Mux(_, _, _) => {
            push_wire(alloc, text, number, width)
        }
    }
}

/// Adds the declaration of a node, unless it is an input.
fn push_declaration(
    alloc: Global,
    text: &mut Vec<u8>,
    net: &Net,
    id: NodeId,
) -> Result<(), NoMemory>
    requires net { IsNet net.now }
    requires node { id.0 < length net.now.nodes }
    ensures { OnOk result (text.new.items ≡ text.old.items ++ line_of declaration_text (declared net.now.nodes id.0)) }
{
    push_declaration_of(alloc, text, id.0, net.width(id), net.node(id))
}

/// Whether a node is given its value by an assignment.
fn is_assigned(net: &Net, node: &Node) -> bool
    ensures { result ≡ is_some (expression_of net.now.nodes (shape_of node.now)) }
{
    match node {
        Node::Input(_, _) | Node::Reg { .. } => false,
        Node::Const(_) | Node::One(_, _) | Node::Two(_, _, _) | Node::Mux(_, _, _) => true,
    }
}

/// Adds the assignment of a node, unless it is an input or a register.
fn push_assignment(alloc: Global, text: &mut Vec<u8>, net: &Net, id: NodeId) -> Result<(), NoMemory>
    requires net { IsNet net.now }
    requires node { id.0 < length net.now.nodes }
    ensures { OnOk result (text.new.items ≡ text.old.items ++ line_of assignment_text (assigned net.now.nodes id.0)) }
{
    let node = net.node(id);
    if !is_assigned(net, node) {
        return Ok(());
    }
    text.extend_from_slice(b"  assign ")?;
    push_numbered(alloc, text, id.0)?;
    text.extend_from_slice(b" = ")?;
    push_value(alloc, text, net, node)?;
    text.extend_from_slice(b";\n")?;
    Ok(())
}

/// Whether a node is a register.
fn is_register(node: &Node) -> bool
    ensures { result ≡ is_register (shape_of node.now) }
{
    matches!(node, Node::Reg { .. })
}

/// Adds what stands before a register's step.
#[tactic(auto, unfolding(crate::specs::Spelling::edge_text))]
fn push_edge(text: &mut Vec<u8>) -> Result<(), NoMemory>
    ensures { OnOk result (text.new.items ≡ text.old.items ++ edge_text) }
{
    text.extend_from_slice(b"  always @(posedge clk) ")?;
    Ok(())
}

/// Adds the step of a register to a node.
fn push_step_to(
    alloc: Global,
    text: &mut Vec<u8>,
    net: &Net,
    register: u64,
    next: NodeId,
) -> Result<(), NoMemory>
    requires { next.0 < length net.now.nodes }
    ensures { OnOk result (text.new.items ≡ text.old.items ++ step_text (record { register = Numbered register; next = identifier_at net.now.nodes next.0 })) }
{
    push_edge(text)?;
    push_numbered(alloc, text, register)?;
    text.extend_from_slice(b" <= ")?;
    push_name(alloc, text, net, next)?;
    text.extend_from_slice(b";\n")?;
    Ok(())
}

/// Adds the step of a register, where a node is one, to its next value.
fn push_step(
    alloc: Global,
    text: &mut Vec<u8>,
    net: &Net,
    nexts: &[u64],
    id: NodeId,
) -> Result<(), NoMemory>
    requires net { IsNet net.now }
    requires nexts { StandBeside (length net.now.nodes) net.now.nexts nexts.now }
    requires node { id.0 < length net.now.nodes }
    ensures { OnOk result (text.new.items ≡ text.old.items ++ line_of step_text (stepped net.now id.0)) }
{
    if !is_register(net.node(id)) {
        return Ok(());
    }
    let next = NodeId(nexts[id.0 as usize]);
    push_step_to(alloc, text, net, id.0, next)?;
    Ok(())
}

/// Adds the line of a node in a part, where it has one.
pub(crate) fn push_line(
    alloc: Global,
    text: &mut Vec<u8>,
    net: &Net,
    nexts: &[u64],
    part: Part,
    id: NodeId,
) -> Result<(), NoMemory>
    requires net { IsNet net.now }
    requires nexts { StandBeside (length net.now.nodes) net.now.nexts nexts.now }
    requires node { id.0 < length net.now.nodes }
    ensures { OnOk result (text.new.items ≡ text.old.items ++ part_line net.now part id.0) }
{
    match part {
        Part::Declarations => push_declaration(alloc, text, net, id),
        Part::Assignments => push_assignment(alloc, text, net, id),
        Part::Steps => push_step(alloc, text, net, nexts, id),
    }
}

/// Adds the assignment of an output.
pub(crate) fn push_output(
    alloc: Global,
    text: &mut Vec<u8>,
    net: &Net,
    name: &Text,
    id: NodeId,
) -> Result<(), NoMemory>
    requires { id.0 < length net.now.nodes }
    ensures { OnOk result (text.new.items ≡ text.old.items ++ assignment_text (output_assigned net.now.nodes (name.now, id.0))) }
{
    text.extend_from_slice(b"  assign ")?;
    push_escaped(text, name.bytes())?;
    text.extend_from_slice(b" = ")?;
    push_name(alloc, text, net, id)?;
    text.extend_from_slice(b";\n")?;
    Ok(())
}
