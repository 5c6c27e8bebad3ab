//! Nodes made one after another, folded and shared at once. No later pass removes doubles, since none are ever made.

ghost use Rattle.std.specs.Prelude.{◌≡◌, ◌<◌, ◌≤◌, [], length, IfOk, OnOk, OnErr};
ghost use Rattle.bv_core.specs.Operators.{Fits1, Fits2, FitsMux};
ghost use Rattle.tree_core.specs.Tree.{Const, Leaf, One, Two, Mux, Input, Register};
ghost use Rattle.tree_core.specs.Width.{tree_width, IsWhole};
ghost use Rattle.tree_core.specs.Fold.{constant, taken, folded};
ghost use Rattle.net_core.specs.Nodes.{shape_of, trees_of, tree_of, width_at, node_tree, OperandsBelow};
ghost use Rattle.net_core.specs.Builder.{Stands, HaveOneIdEach, AreShared, Keeps, Adds, constant_shape};
ghost use Rattle.net_core.specs.Nets.{outputs_of, nexts_of, OutputsFit, NextsFit, IsNet};
ghost use Rattle.net_core.specs.Outcomes.{outcome_of};

use crate::entry::Entry;
use crate::outcome::{Outcome, mux_outcome, one_outcome, two_outcome, width1, width2};
use crate::{Net, Node};
use bv_core::{Bv, NodeId, Op1, Op2};
use indexmap::IndexSet;
use std::alloc::Global;
use std::marker::Model;
use text_core::{NoMemory, Text};

/// Nodes that are made one after another, none of them twice. Contracts see the list of its nodes, in which the id of
/// each is its place.
#[derive(Drop)]
pub struct NetBuilder {
    nodes: IndexSet<Entry>,
}

impl Model for NetBuilder {
    ghost use Rattle.std.specs.Prelude.{List};
    ghost use Rattle.net_core.specs.Nodes.{Shape};
    ghost use Rattle.net_core.specs.Builder.{shapes_of, AreEntries};

    ghost Value = { List Shape };

    ghost view = { λ b. shapes_of b.nodes.keys };

    ghost invariant = { λ b. AreEntries b.nodes.keys };
}

/// The value of a node that is a constant.
fn constant_of(node: &Node) -> Option<Bv>
    ensures { result ≡ constant_shape (shape_of node.now) }
{
    match node {
        Node::Const(b) => Some(*b),
        _ => None,
    }
}

impl NetBuilder {
    /// No nodes.
    pub fn new(alloc: Global) -> Result<NetBuilder, NoMemory>
        ensures nodes { IfOk result (λ builder. builder ≡ []) }
        ensures shared { IfOk result AreShared }
    {
        Ok(NetBuilder {
            nodes: IndexSet::new(alloc),
        })
    }

    /// The value of an id that stands for a constant.
    fn constant_at(&self, id: NodeId) -> Option<Bv>
        requires { id.0 < length self.now }
        ensures constant { result ≡ constant (tree_of self.now id.0) }
        ensures shared { AreShared self.now }
    {
        let entry = self.nodes.get_index(id.0 as usize).unwrap();
        constant_of(&entry.node)
    }

    /// How many nodes there are. Their ids are the numbers below it.
    pub fn count(&self) -> u64
        ensures { result ≡ length self.now }
    {
        self.nodes.len() as u64
    }

    /// The width of what an id stands for, from 1 to 128.
    pub fn width(&self, id: NodeId) -> u8
        requires { id.0 < length self.now }
        ensures { result ≡ width_at self.now id.0 }
    {
        self.nodes.get_index(id.0 as usize).unwrap().width
    }

    /// The id of a node, which is added last where it is not there.
    fn put(&mut self, node: Node, width: u8) -> Result<NodeId, NoMemory>
        requires below { OperandsBelow (length self.old) (shape_of node) }
        requires whole { IsWhole (node_tree (trees_of self.old) (shape_of node)) }
        requires folded { folded (node_tree (trees_of self.old) (shape_of node)) ≡ node_tree (trees_of self.old) (shape_of node) }
        requires width { width ≡ tree_width (node_tree (trees_of self.old) (shape_of node)) }
        ensures stands { IfOk result (λ id. Stands self.new id.0 (node_tree (trees_of self.old) (shape_of node))) }
        ensures adds { OnOk result (Adds self.old self.new (node_tree (trees_of self.old) (shape_of node))) }
        ensures keeps { OnOk result (Keeps self.old self.new) }
        ensures one_id { OnOk result (HaveOneIdEach (trees_of self.new)) }
        ensures shared { OnOk result (AreShared self.new) }
        ensures err { OnErr result (self.new ≡ self.old) }
    {
        let (place, _) = self.nodes.insert_full(Entry { node, width })?;
        Ok(NodeId(place as u64))
    }

    /// The id of what folding makes of a node: of the node itself, which has this width, of a constant, or of one of the
    /// operands a, b and c.
    fn settle(
        &mut self,
        outcome: Outcome,
        a: NodeId,
        b: NodeId,
        c: NodeId,
        itself: Entry,
    ) -> Result<NodeId, NoMemory>
        requires shared { AreShared self.old }
        requires first { a.0 < length self.old }
        requires second { b.0 < length self.old }
        requires third { c.0 < length self.old }
        requires below { OperandsBelow (length self.old) (shape_of itself.node) }
        requires whole { IsWhole (node_tree (trees_of self.old) (shape_of itself.node)) }
        requires width { itself.width ≡ tree_width (node_tree (trees_of self.old) (shape_of itself.node)) }
        requires folds { folded (node_tree (trees_of self.old) (shape_of itself.node))
            ≡ taken (outcome_of outcome) (tree_of self.old a.0) (tree_of self.old b.0) (tree_of self.old c.0)
            (node_tree (trees_of self.old) (shape_of itself.node)) }
        ensures stands { IfOk result (λ id. Stands self.new id.0 (folded (node_tree (trees_of self.old) (shape_of itself.node)))) }
        ensures adds { OnOk result (Adds self.old self.new (folded (node_tree (trees_of self.old) (shape_of itself.node)))) }
        ensures keeps { OnOk result (Keeps self.old self.new) }
        ensures one_id { OnOk result (HaveOneIdEach (trees_of self.new)) }
        ensures shared { OnOk result (AreShared self.new) }
        ensures err { OnErr result (self.new ≡ self.old) }
    {
        match outcome {
            Outcome::Value(v) => self.put(Node::Const(v), v.width()),
            Outcome::First => Ok(a),
            Outcome::Second => Ok(b),
            Outcome::Third => Ok(c),
            Outcome::Itself => self.put(itself.node, itself.width),
        }
    }

    /// The id of a constant.
    pub fn constant(&mut self, v: Bv) -> Result<NodeId, NoMemory>
        ensures stands { IfOk result (λ id. Stands self.new id.0 (Const v)) }
        ensures adds { OnOk result (Adds self.old self.new (Const v)) }
        ensures keeps { OnOk result (Keeps self.old self.new) }
        ensures one_id { OnOk result (HaveOneIdEach (trees_of self.new)) }
        ensures shared { OnOk result (AreShared self.new) }
        ensures err { OnErr result (self.new ≡ self.old) }
    {
        self.put(Node::Const(v), v.width())
    }

    /// The id of the top's input of this name and width.
    pub fn input(&mut self, name: &[u8], width: u8) -> Result<NodeId, NoMemory>
        requires some { 1 ≤ width }
        requires most { width ≤ 128 }
        ensures stands { IfOk result (λ id. Stands self.new id.0 (Leaf (Input name.now width))) }
        ensures adds { OnOk result (Adds self.old self.new (Leaf (Input name.now width))) }
        ensures keeps { OnOk result (Keeps self.old self.new) }
        ensures one_id { OnOk result (HaveOneIdEach (trees_of self.new)) }
        ensures shared { OnOk result (AreShared self.new) }
        ensures err { OnErr result (self.new ≡ self.old) }
    {
        let name = Text::new(*self.nodes.allocator(), name)?;
        self.put(Node::Input(name, width), width)
    }

    /// The id of the register of this name, in the instance with this path, that starts with this value.
    pub fn register(&mut self, instance: &[u8], name: &[u8], start: Bv) -> Result<NodeId, NoMemory>
        ensures stands { IfOk result (λ id. Stands self.new id.0 (Leaf (Register instance.now name.now start))) }
        ensures adds { OnOk result (Adds self.old self.new (Leaf (Register instance.now name.now start))) }
        ensures keeps { OnOk result (Keeps self.old self.new) }
        ensures one_id { OnOk result (HaveOneIdEach (trees_of self.new)) }
        ensures shared { OnOk result (AreShared self.new) }
        ensures err { OnErr result (self.new ≡ self.old) }
    {
        let alloc = *self.nodes.allocator();
        let instance = Text::new(alloc, instance)?;
        let name = Text::new(alloc, name)?;
        let width = start.width();
        self.put(
            Node::Reg {
                instance,
                name,
                start,
            },
            width,
        )
    }

    /// The id of an operator on what an id stands for, folded.
    pub fn apply1(&mut self, op: Op1, a: NodeId) -> Result<NodeId, NoMemory>
        requires operand { a.0 < length self.old }
        requires widths { Fits1 op (width_at self.old a.0) }
        ensures stands { IfOk result (λ id. Stands self.new id.0 (folded (One op (tree_of self.old a.0)))) }
        ensures adds { OnOk result (Adds self.old self.new (folded (One op (tree_of self.old a.0)))) }
        ensures keeps { OnOk result (Keeps self.old self.new) }
        ensures one_id { OnOk result (HaveOneIdEach (trees_of self.new)) }
        ensures shared { OnOk result (AreShared self.new) }
        ensures err { OnErr result (self.new ≡ self.old) }
    {
        let constant = self.constant_at(a);
        let width = self.width(a);
        let outcome = one_outcome(op, width, constant);
        let itself = Entry {
            node: Node::One(op, a),
            width: width1(op, width),
        };
        self.settle(outcome, a, a, a, itself)
    }

    /// The id of an operator on what two ids stand for, folded.
    pub fn apply2(&mut self, op: Op2, a: NodeId, b: NodeId) -> Result<NodeId, NoMemory>
        requires left { a.0 < length self.old }
        requires right { b.0 < length self.old }
        requires widths { Fits2 op (width_at self.old a.0) (width_at self.old b.0) }
        ensures stands { IfOk result (λ id. Stands self.new id.0 (folded (Two op (tree_of self.old a.0) (tree_of self.old b.0)))) }
        ensures adds { OnOk result (Adds self.old self.new (folded (Two op (tree_of self.old a.0) (tree_of self.old b.0)))) }
        ensures keeps { OnOk result (Keeps self.old self.new) }
        ensures one_id { OnOk result (HaveOneIdEach (trees_of self.new)) }
        ensures shared { OnOk result (AreShared self.new) }
        ensures err { OnErr result (self.new ≡ self.old) }
    {
        let left = self.constant_at(a);
        let right = self.constant_at(b);
        let outcome = two_outcome(op, &left, &right);
        let itself = Entry {
            node: Node::Two(op, a, b),
            width: width2(op, self.width(a), self.width(b)),
        };
        self.settle(outcome, a, b, b, itself)
    }

    /// The id of the choice, by what c stands for, of what a and b stand for, folded.
    pub fn choose(&mut self, c: NodeId, a: NodeId, b: NodeId) -> Result<NodeId, NoMemory>
        requires condition { c.0 < length self.old }
        requires first { a.0 < length self.old }
        requires second { b.0 < length self.old }
        requires widths { FitsMux (width_at self.old c.0) (width_at self.old a.0) (width_at self.old b.0) }
        ensures stands { IfOk result (λ id. Stands self.new id.0 (folded (Mux (tree_of self.old c.0) (tree_of self.old a.0) (tree_of self.old b.0)))) }
        ensures adds { OnOk result (Adds self.old self.new (folded (Mux (tree_of self.old c.0) (tree_of self.old a.0) (tree_of self.old b.0)))) }
        ensures keeps { OnOk result (Keeps self.old self.new) }
        ensures one_id { OnOk result (HaveOneIdEach (trees_of self.new)) }
        ensures shared { OnOk result (AreShared self.new) }
        ensures err { OnErr result (self.new ≡ self.old) }
    {
        let condition = self.constant_at(c);
        let first = self.constant_at(a);
        let second = self.constant_at(b);
        let same = a.0 == b.0;
        let outcome = mux_outcome(condition, first, second, same);
        let itself = Entry {
            node: Node::Mux(c, a, b),
            width: self.width(a),
        };
        self.settle(outcome, c, a, b, itself)
    }

    /// The net of the nodes so far, with these outputs, and with these next values of its registers. Takes no memory.
    pub fn finish(self, outputs: Vec<(Text, NodeId)>, nexts: Vec<(NodeId, NodeId)>) -> Net
        requires outputs { OutputsFit self (outputs_of outputs.items) }
        requires nexts { NextsFit self (nexts_of nexts.items) }
        ensures parts { result ≡ record { nodes = self; outputs = outputs_of outputs.items; nexts = nexts_of nexts.items } }
        ensures net { IsNet result }
    {
        let NetBuilder { nodes } = self;
        Net::new(nodes, outputs, nexts)
    }
}
