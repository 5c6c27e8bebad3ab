//! The head: the scope and the declarations.

ghost use Rattle.std.specs.Prelude.{◌≡◌, ◌<◌, ◌≤◌, ◌+◌, ◌^◌, ◌++◌, [], ◌∷◌, OnOk, codes, length};
ghost use Rattle.std.specs.List.{flat_map};
ghost use Rattle.list_core.specs.Lists.{from};
ghost use Rattle.net_core.specs.Nodes.{shape_of};
ghost use Rattle.net_core.specs.Nets.{outputs_of, OutputsFit, IsNet};
ghost use Rattle.std.specs.Fmt.{decimal};
ghost use Rattle.vcd_text.specs.Dump.{line_text, code_text, kind_text, range_words, variable_words, variables_text, head_text, middle_text, front_text};
ghost use Rattle.vcd_text.specs.Waves.{clock};
ghost use Rattle.vcd_write.specs.Run.{variable_of, variables_of};
ghost use Rattle.vcd_write.specs.Written.{node_line, output_lines};

use crate::value::push_time;
use crate::word::push_code;
use bv_core::NodeId;
use design_core::Ports;
use net_core::{Net, Node};
use std::alloc::Global;
use text_core::{NoMemory, Text};

/// Adds the beginning of a declaration, with the type.
fn push_kind(text: &mut Vec<u8>, register: bool) -> Result<(), NoMemory>
    ensures { OnOk result (text.new.items ≡ text.old.items ++ (codes "$var " ++ kind_text register ++ codes " ")) }
{
    if register {
        text.extend_from_slice(b"$var reg ")?;
        return Ok(());
    }
    text.extend_from_slice(b"$var wire ")?;
    Ok(())
}

/// Adds what ends a declaration: the places of more than one bit, and the last word.
fn push_end(alloc: Global, text: &mut Vec<u8>, size: u8) -> Result<(), NoMemory>
    requires { 1 ≤ size }
    ensures { OnOk result (text.new.items ≡ text.old.items ++ 32 ∷ line_text (range_words size ++ codes "$end" ∷ [])) }
{
    if size == 1 {
        text.extend_from_slice(b" $end\n")?;
        return Ok(());
    }
    let highest = size - 1;
    let range = format!(in alloc; " [{highest}:0] $end\n")?;
    text.extend_from_slice(range.as_bytes())?;
    Ok(())
}

/// Adds the size and the code of a variable.
fn push_size(alloc: Global, text: &mut Vec<u8>, number: u64, size: u8) -> Result<(), NoMemory>
    ensures { OnOk result (text.new.items ≡ text.old.items ++ (decimal size ++ codes " " ++ code_text number ++ codes " ")) }
{
    let digits = format!(in alloc; "{size} ")?;
    text.extend_from_slice(digits.as_bytes())?;
    push_code(text, number)?;
    text.push(b' ')?;
    Ok(())
}

/// Adds the declaration of a variable.
fn push_variable(
    alloc: Global,
    text: &mut Vec<u8>,
    number: u64,
    register: bool,
    size: u8,
    name: &[u8],
) -> Result<(), NoMemory>
    requires { 1 ≤ size }
    ensures { OnOk result (text.new.items ≡ text.old.items ++ line_text
        (variable_words number (record { register = register; size = size; name = name.now }))) }
{
    push_kind(text, register)?;
    push_size(alloc, text, number, size)?;
    text.extend_from_slice(name)?;
    push_end(alloc, text, size)?;
    Ok(())
}

/// Adds the declaration of a node that is no input.
fn push_numbered(
    alloc: Global,
    text: &mut Vec<u8>,
    number: u64,
    register: bool,
    size: u8,
) -> Result<(), NoMemory>
    requires number { number + 1 < 2 ^ 64 }
    requires size { 1 ≤ size }
    ensures { OnOk result (text.new.items ≡ text.old.items ++ line_text
        (variable_words (number + 1) (record { register = register; size = size; name = codes "_" ++ decimal number }))) }
{
    let name = format!(in alloc; "_{number}")?;
    push_variable(alloc, text, number + 1, register, size, name.as_bytes())
}

/// Adds the declaration of a node of this number and width.
fn push_node_of(
    alloc: Global,
    text: &mut Vec<u8>,
    number: u64,
    width: u8,
    node: &Node,
) -> Result<(), NoMemory>
    requires number { number + 1 < 2 ^ 64 }
    requires width { 1 ≤ width }
    ensures { OnOk result (text.new.items ≡ text.old.items ++ line_text (variable_words (number + 1) (variable_of number width (shape_of node.now)))) }
{
    match node {
        Node::Input(name, _) => push_variable(alloc, text, number + 1, false, width, name.bytes()),
        Node::Reg { .. } => push_numbered(alloc, text, number, true, width),
        Node::Const(_) => push_numbered(alloc, text, number, false, width),
        Node::One(_, _) | Node::Two(_, _, _) | Node::Mux(_, _, _) => {
            push_numbered(alloc, text, number, false, width)
        }
    }
}

/// Adds the declaration of a node.
fn push_node(alloc: Global, text: &mut Vec<u8>, net: &Net, id: NodeId) -> Result<(), NoMemory>
    requires net { IsNet net.now }
    requires node { id.0 < length net.now.nodes }
    requires number { id.0 + 1 < 2 ^ 64 }
    ensures { OnOk result (text.new.items ≡ text.old.items ++ node_line net.now.nodes id.0) }
{
    push_node_of(alloc, text, id.0, net.width(id), net.node(id))
}

/// Adds the declarations of the nodes, by their numbers.
fn push_nodes(alloc: Global, text: &mut Vec<u8>, net: &Net) -> Result<(), NoMemory>
    requires { IsNet net.now }
    ensures { OnOk result (text.new.items ≡ text.old.items ++ flat_map (node_line net.now.nodes) (from 0 (length net.now.nodes))) }
{
    for number in 0..net.count() {
        push_node(alloc, text, net, NodeId(number))?;
    }
    Ok(())
}

/// Adds the declaration of an output.
fn push_output(
    alloc: Global,
    text: &mut Vec<u8>,
    net: &Net,
    number: u64,
    output: &(Text, NodeId),
) -> Result<(), NoMemory>
    requires net { IsNet net.now }
    requires node { output.now.1.0 < length net.now.nodes }
    ensures { OnOk result (text.new.items ≡ text.old.items ++ output_lines net.now.nodes number (output.now ∷ [])) }
{
    let size = net.width(output.1);
    push_variable(alloc, text, number, false, size, output.0.bytes())
}

/// Adds the declarations of outputs, behind so many nodes.
fn push_outputs(
    alloc: Global,
    text: &mut Vec<u8>,
    net: &Net,
    before: u64,
    outputs: &[(Text, NodeId)],
) -> Result<(), NoMemory>
    requires net { IsNet net.now }
    requires nodes { OutputsFit net.now.nodes (outputs_of outputs.now) }
    requires numbers { before + length outputs.now < 2 ^ 64 }
    ensures { OnOk result (text.new.items ≡ text.old.items ++ output_lines net.now.nodes (before + 1) outputs.now) }
{
    for (place, output) in outputs.iter().enumerate() {
        let number = before + place as u64 + 1;
        push_output(alloc, text, net, number, output)?;
    }
    Ok(())
}

/// Adds the unit of time, and the scope that is opened.
fn push_scope(text: &mut Vec<u8>, scope: &Text) -> Result<(), NoMemory>
    ensures { OnOk result (text.new.items ≡ text.old.items ++ head_text scope.now) }
{
    text.extend_from_slice(b"$timescale 1ns $end\n$scope module ")?;
    text.extend_from_slice(scope.bytes())?;
    text.extend_from_slice(b" $end\n")?;
    Ok(())
}

/// Adds what stands between the declarations and the first value.
fn push_middle(alloc: Global, text: &mut Vec<u8>) -> Result<(), NoMemory>
    ensures { OnOk result (text.new.items ≡ text.old.items ++ middle_text) }
{
    text.extend_from_slice(b"$upscope $end\n$enddefinitions $end\n")?;
    push_time(alloc, text, 0)?;
    text.extend_from_slice(b"$dumpvars\n")?;
    Ok(())
}

/// Adds the declarations: of the clock, of the nodes, and of the outputs.
fn push_variables(alloc: Global, text: &mut Vec<u8>, net: &Net) -> Result<(), NoMemory>
    requires net { IsNet net.now }
    requires numbers { length net.now.nodes + length net.now.outputs < 2 ^ 64 }
    ensures { OnOk result (text.new.items ≡ text.old.items ++ variables_text 0 (clock ∷ variables_of net.now)) }
{
    push_variable(alloc, text, 0, false, 1, b"clk")?;
    push_nodes(alloc, text, net)?;
    push_outputs(alloc, text, net, net.count(), net.outputs())?;
    Ok(())
}

/// Adds what stands before the first value.
pub(crate) fn push_front(
    alloc: Global,
    text: &mut Vec<u8>,
    net: &Net,
    ports: &Ports,
) -> Result<(), NoMemory>
    requires net { IsNet net.now }
    requires numbers { length net.now.nodes + length net.now.outputs < 2 ^ 64 }
    ensures { OnOk result (text.new.items ≡ text.old.items ++ front_text ports.now.module (clock ∷ variables_of net.now)) }
{
    push_scope(text, &ports.module)?;
    push_variables(alloc, text, net)?;
    push_middle(alloc, text)?;
    Ok(())
}
