//! The right sides of assignments.

ghost use Rattle.std.specs.Prelude.{◌≡◌, ◌<◌, ◌++◌, OnOk, length, codes};
ghost use Rattle.std.specs.Fmt.{decimal};
ghost use Rattle.bv_core.specs.Text.{shown};
ghost use Rattle.net_core.specs.Nodes.{shape_of, width_at, OperandsBelow};
ghost use Rattle.verilog_out.specs.Syntax.{Join, Pad, Select, Choose};
ghost use Rattle.verilog_out.specs.Spelling.{identifier_text, expression_text};
ghost use Rattle.verilog_out.specs.Printed.{identifier_at, one_printed, two_printed, expression_of};
ghost use Rattle.verilog_out.specs.Lines.{line_of};

use crate::name::push_name;
use bv_core::{Bv, NodeId, Op1, Op2, text_of};
use net_core::{Net, Node};
use std::alloc::Global;
use text_core::NoMemory;

/// Adds a value as a literal.
pub(crate) fn push_literal(alloc: Global, text: &mut Vec<u8>, value: Bv) -> Result<(), NoMemory>
    ensures { OnOk result (text.new.items ≡ text.old.items ++ shown value) }
{
    text.extend_from_slice(text_of(alloc, value)?.as_bytes())?;
    Ok(())
}

/// Adds a sign and the name of its operand.
fn push_before(
    alloc: Global,
    text: &mut Vec<u8>,
    net: &Net,
    sign: &str,
    a: NodeId,
) -> Result<(), NoMemory>
    requires { a.0 < length net.now.nodes }
    ensures { OnOk result (text.new.items ≡ text.old.items ++ (sign.now ++ identifier_text (identifier_at net.now.nodes a.0))) }
{
    text.extend_from_slice(sign.as_bytes())?;
    push_name(alloc, text, net, a)
}

/// Adds the bits of a name from one place down to another.
fn push_select(
    alloc: Global,
    text: &mut Vec<u8>,
    net: &Net,
    a: NodeId,
    high: u8,
    low: u8,
) -> Result<(), NoMemory>
    requires { a.0 < length net.now.nodes }
    ensures { OnOk result (text.new.items ≡ text.old.items ++ expression_text (Select (identifier_at net.now.nodes a.0) high low)) }
{
    push_name(alloc, text, net, a)?;
    let places = format!(in alloc; "[{high}:{low}]")?;
    text.extend_from_slice(places.as_bytes())?;
    Ok(())
}

/// Adds a name behind so many zeros.
fn push_padded(
    alloc: Global,
    text: &mut Vec<u8>,
    net: &Net,
    zeros: u8,
    a: NodeId,
) -> Result<(), NoMemory>
    requires { a.0 < length net.now.nodes }
    ensures { OnOk result (text.new.items ≡ text.old.items ++ expression_text (Pad zeros (identifier_at net.now.nodes a.0))) }
{
    text.push(b'{')?;
    let padding = format!(in alloc; "{zeros}'h0, ")?;
    text.extend_from_slice(padding.as_bytes())?;
    push_name(alloc, text, net, a)?;
    text.push(b'}')?;
    Ok(())
}

/// Adds a name at a greater width, or alone where the width stays.
fn push_widened(
    alloc: Global,
    text: &mut Vec<u8>,
    net: &Net,
    a: NodeId,
    to: u8,
) -> Result<(), NoMemory>
    requires { a.0 < length net.now.nodes }
    ensures { OnOk result (text.new.items ≡ text.old.items ++ expression_text
        (one_printed (Op1.Zext to) (width_at net.now.nodes a.0) (identifier_at net.now.nodes a.0))) }
{
    let width = net.width(a);
    if width < to {
        push_padded(alloc, text, net, to - width, a)
    } else {
        push_name(alloc, text, net, a)
    }
}

/// Adds an operator on a node.
fn push_one(
    alloc: Global,
    text: &mut Vec<u8>,
    net: &Net,
    op: Op1,
    a: NodeId,
) -> Result<(), NoMemory>
    requires { a.0 < length net.now.nodes }
    ensures { OnOk result (text.new.items ≡ text.old.items ++ expression_text (one_printed op (width_at net.now.nodes a.0) (identifier_at net.now.nodes a.0))) }
{
    match op {
        Op1::Not => push_before(alloc, text, net, "~", a),
        Op1::All => push_before(alloc, text, net, "&", a),
        Op1::Any => push_before(alloc, text, net, "|", a),
        Op1::Parity => push_before(alloc, text, net, "^", a),
        Op1::Slice(high, low) => push_select(alloc, text, net, a, high, low),
        Op1::Zext(to) => push_widened(alloc, text, net, a, to),
    }
}

/// Adds two names with a sign between them.
fn push_between(
    alloc: Global,
    text: &mut Vec<u8>,
    net: &Net,
    a: NodeId,
    sign: &str,
    b: NodeId,
) -> Result<(), NoMemory>
    requires left { a.0 < length net.now.nodes }
    requires right { b.0 < length net.now.nodes }
    ensures { OnOk result (text.new.items ≡ text.old.items ++
        (identifier_text (identifier_at net.now.nodes a.0) ++ (sign.now ++ identifier_text (identifier_at net.now.nodes b.0)))) }
{
    push_name(alloc, text, net, a)?;
    text.extend_from_slice(sign.as_bytes())?;
    push_name(alloc, text, net, b)
}

/// Adds two names joined.
fn push_joined(
    alloc: Global,
    text: &mut Vec<u8>,
    net: &Net,
    a: NodeId,
    b: NodeId,
) -> Result<(), NoMemory>
    requires left { a.0 < length net.now.nodes }
    requires right { b.0 < length net.now.nodes }
    ensures { OnOk result (text.new.items ≡ text.old.items ++ expression_text (Join (identifier_at net.now.nodes a.0) (identifier_at net.now.nodes b.0))) }
{
    text.push(b'{')?;
    push_between(alloc, text, net, a, ", ", b)?;
    text.push(b'}')?;
    Ok(())
}

/// Adds an operator on two nodes.
fn push_two(
    alloc: Global,
    text: &mut Vec<u8>,
    net: &Net,
    op: Op2,
    a: NodeId,
    b: NodeId,
) -> Result<(), NoMemory>
    requires left { a.0 < length net.now.nodes }
    requires right { b.0 < length net.now.nodes }
    ensures { OnOk result (text.new.items ≡ text.old.items ++ expression_text
        (two_printed op (identifier_at net.now.nodes a.0) (identifier_at net.now.nodes b.0))) }
{
    match op {
        Op2::Add => push_between(alloc, text, net, a, " + ", b),
        Op2::Sub => push_between(alloc, text, net, a, " - ", b),
        Op2::Mul => push_between(alloc, text, net, a, " * ", b),
        Op2::And => push_between(alloc, text, net, a, " & ", b),
        Op2::Or => push_between(alloc, text, net, a, " | ", b),
        Op2::Xor => push_between(alloc, text, net, a, " ^ ", b),
        Op2::Eq => push_between(alloc, text, net, a, " == ", b),
        Op2::Ne => push_between(alloc, text, net, a, " != ", b),
        Op2::Lt => push_between(alloc, text, net, a, " < ", b),
        Op2::Le => push_between(alloc, text, net, a, " <= ", b),
        Op2::Shl => push_between(alloc, text, net, a, " << ", b),
        Op2::Shr => push_between(alloc, text, net, a, " >> ", b),
        Op2::Cat => push_joined(alloc, text, net, a, b),
    }
}

/// Adds a choice, by the first node, of the others.
fn push_choice(
    alloc: Global,
    text: &mut Vec<u8>,
    net: &Net,
    c: NodeId,
    a: NodeId,
    b: NodeId,
) -> Result<(), NoMemory>
    requires condition { c.0 < length net.now.nodes }
    requires first { a.0 < length net.now.nodes }
    requires second { b.0 < length net.now.nodes }
    ensures { OnOk result (text.new.items ≡ text.old.items ++ expression_text
        (Choose (identifier_at net.now.nodes c.0) (identifier_at net.now.nodes a.0) (identifier_at net.now.nodes b.0))) }
{
    push_name(alloc, text, net, c)?;
    text.extend_from_slice(b" ? ")?;
    push_between(alloc, text, net, a, " : ", b)
}

/// Adds the value of a node, unless it is an input or a register.
pub(crate) fn push_value(
    alloc: Global,
    text: &mut Vec<u8>,
    net: &Net,
    node: &Node,
) -> Result<(), NoMemory>
    requires { OperandsBelow (length net.now.nodes) (shape_of node.now) }
    ensures { OnOk result (text.new.items ≡ text.old.items ++ line_of expression_text (expression_of net.now.nodes (shape_of node.now))) }
{
    match node {
        Node::Input(_, _) | Node::Reg { .. } => Ok(()),
        Node::Const(value) => push_literal(alloc, text, *value),
        Node::One(op, a) => push_one(alloc, text, net, *op, *a),
        Node::Two(op, a, b) => push_two(alloc, text, net, *op, *a, *b),
        Node::Mux(c, a, b) => push_choice(alloc, text, net, *c, *a, *b),
    }
}
