//! What a node is, and when two are the same: by operator, operands and constants, and not by where they came from.

ghost use Rattle.std.specs.Prelude.{◌≡◌, ◌<◌, fold};
ghost use Rattle.tree_core.specs.Fold.{same_op1, same_op2, same_bits, op2_number};
ghost use Rattle.net_core.specs.Hashed.{fed_op1};

use bv_core::{Bv, NodeId, Op1, Op2};
use std::hash::{Hash, Hasher};
use text_core::Text;

/// A node of a net: an equation for its value over the values of the nodes that it names.
#[derive(Drop)]
pub enum Node {
    /// This value, always.
    Const(Bv),
    /// The top's input of this name, with its width.
    Input(Text, u8),
    /// A register.
    Reg {
        /// The path of its instance.
        instance: Text,
        /// Its name.
        name: Text,
        /// The value that it starts with.
        start: Bv,
    },
    /// An operator on the value of a node.
    One(Op1, NodeId),
    /// An operator on the values of two nodes.
    Two(Op2, NodeId, NodeId),
    /// The second value where the first is 1, else the third.
    Mux(NodeId, NodeId, NodeId),
}

/// The place of an operator among those on two values.
fn op2_number(op: Op2) -> u8
    ensures number { result ≡ op2_number op }
    ensures bound { result < 13 }
{
    match op {
        Op2::Add => 0,
        Op2::Sub => 1,
        Op2::Mul => 2,
        Op2::And => 3,
        Op2::Or => 4,
        Op2::Xor => 5,
        Op2::Eq => 6,
        Op2::Ne => 7,
        Op2::Lt => 8,
        Op2::Le => 9,
        Op2::Shl => 10,
        Op2::Shr => 11,
        Op2::Cat => 12,
    }
}

/// Whether two operators are the same.
fn same_op1(a: Op1, b: Op1) -> bool
    ensures { result ≡ same_op1 a b }
{
    match (a, b) {
        (Op1::Not, Op1::Not) => true,
        (Op1::All, Op1::All) => true,
        (Op1::Any, Op1::Any) => true,
        (Op1::Parity, Op1::Parity) => true,
        (Op1::Slice(h, l), Op1::Slice(i, m)) => h == i && l == m,
        (Op1::Zext(v), Op1::Zext(w)) => v == w,
        _ => false,
    }
}

/// Whether two operators are the same.
fn same_op2(a: Op2, b: Op2) -> bool
    ensures { result ≡ same_op2 a b }
{
    op2_number(a) == op2_number(b)
}

/// Whether two values are the same.
fn same_bits(a: Bv, b: Bv) -> bool
    ensures { result ≡ same_bits a b }
{
    a.width() == b.width() && a.value() == b.value()
}

/// Feeds an operator to a hasher.
fn feed_op1<H: Hasher>(op: Op1, state: &mut H)
    ensures { state.new ≡ fold H.write state.old (fed_op1 op) }
{
    match op {
        Op1::Not => state.write_u8(0),
        Op1::All => state.write_u8(1),
        Op1::Any => state.write_u8(2),
        Op1::Parity => state.write_u8(3),
        Op1::Slice(high, low) => {
            state.write_u8(4);
            state.write_u8(high);
            state.write_u8(low);
        }
        Op1::Zext(to) => {
            state.write_u8(5);
            state.write_u8(to);
        }
    }
}

impl PartialEq for Node {
    ghost use Rattle.net_core.specs.Nodes.{shape_of, same_shape};
    ghost use Rattle.net_core.specs.Same.{nodes_per};

    ghost eq = { λ a b. same_shape (shape_of a) (shape_of b) };

    ghost laws = { nodes_per };

    fn eq(&self, other: &Node) -> bool {
        match (self, other) {
            (Node::Const(a), Node::Const(b)) => same_bits(*a, *b),
            (Node::Input(n, v), Node::Input(m, w)) => n.bytes() == m.bytes() && v == w,
            (
                Node::Reg {
                    instance: i,
                    name: n,
                    start: s,
                },
                Node::Reg {
                    instance: j,
                    name: m,
                    start: t,
                },
            ) => i.bytes() == j.bytes() && n.bytes() == m.bytes() && same_bits(*s, *t),
            (Node::One(o, a), Node::One(p, b)) => same_op1(*o, *p) && a.0 == b.0,
            (Node::Two(o, a, b), Node::Two(p, c, d)) => {
                same_op2(*o, *p) && a.0 == c.0 && b.0 == d.0
            }
            (Node::Mux(a, b, c), Node::Mux(d, e, f)) => a.0 == d.0 && b.0 == e.0 && c.0 == f.0,
            _ => false,
        }
    }
}

impl Eq for Node {
    ghost use Rattle.net_core.specs.Same.{nodes_equiv};

    ghost laws = { nodes_equiv };
}

impl Hash for Node {
    ghost use Rattle.net_core.specs.Nodes.{shape_of};
    ghost use Rattle.net_core.specs.Hashed.{fed_shape};
    ghost use Rattle.net_core.specs.Same.{nodes_fed};

    ghost hash_input = { λ a. fed_shape (shape_of a) };

    ghost respects_eq = { nodes_fed };

    fn hash<H: Hasher>(&self, state: &mut H) {
        match self {
            Node::Const(b) => {
                state.write_u8(0);
                state.write_u8(b.width());
                state.write_u128(b.value());
            }
            Node::Input(name, _) => {
                state.write_u8(1);
                name.bytes().hash(state);
            }
            Node::Reg { instance, name, .. } => {
                state.write_u8(2);
                instance.bytes().hash(state);
                name.bytes().hash(state);
            }
            Node::One(op, a) => {
                state.write_u8(3);
                state.write_u64(a.0);
                feed_op1(*op, state);
            }
            Node::Two(op, a, b) => {
                state.write_u8(4 + op2_number(*op));
                state.write_u64(a.0);
                state.write_u64(b.0);
            }
            Node::Mux(c, a, b) => {
                state.write_u8(17);
                state.write_u64(c.0);
                state.write_u64(a.0);
                state.write_u64(b.0);
            }
        }
    }
}
