//! A net: nodes above their operands, so that one pass in order of their numbers gives every value.

ghost use Rattle.std.specs.Prelude.{◌≡◌, ◌<◌, length};
ghost use Rattle.net_core.specs.Nodes.{shape_of, shape_at, tree_of, trees_of, node_tree, width_at};
ghost use Rattle.net_core.specs.Nets.{outputs_of, nexts_of, OutputsFit, NextsFit, IsNet};
ghost use Rattle.net_core.specs.Kept.{parts_of, IsKept};

use crate::Node;
use crate::entry::Entry;
use bv_core::NodeId;
use indexmap::IndexSet;
use std::marker::Model;
use text_core::Text;

/// Numbered nodes with outputs, and a next value for each register. It is a system of equations, one for each node: each
/// node is numbered above its operands, so it has exactly one solution under inputs and registers.
#[derive(Drop)]
pub struct Net {
    nodes: IndexSet<Entry>,
    outputs: Vec<(Text, NodeId)>,
    nexts: Vec<(NodeId, NodeId)>,
}

impl Model for Net {
    ghost use Rattle.net_core.specs.Builder.{shapes_of, AreEntries};
    ghost use Rattle.net_core.specs.Nets.{NetParts};
    ghost use Rattle.net_core.specs.Kept.{parts_of, IsKept};

    ghost Value = { NetParts };

    ghost view = { λ n. parts_of n.nodes.keys n.outputs.items n.nexts.items };

    ghost invariant = { λ n. IsKept n.nodes.keys n.outputs.items n.nexts.items };
}

impl Net {
    /// How many nodes there are. Their ids are the numbers below it.
    pub fn count(&self) -> u64
        ensures count { result ≡ length self.now.nodes }
        ensures net { IsNet self.now }
    {
        self.nodes.len() as u64
    }

    /// The node of an id.
    pub fn node(&self, id: NodeId) -> &Node
        requires { id.0 < length self.now.nodes }
        ensures node { shape_of result.now ≡ shape_at self.now.nodes id.0 }
        ensures tree { tree_of self.now.nodes id.0 ≡ node_tree (trees_of self.now.nodes) (shape_of result.now) }
    {
        &self.nodes.get_index(id.0 as usize).unwrap().node
    }

    /// The width of a node, from 1 to 128.
    pub fn width(&self, id: NodeId) -> u8
        requires { id.0 < length self.now.nodes }
        ensures { result ≡ width_at self.now.nodes id.0 }
    {
        self.nodes.get_index(id.0 as usize).unwrap().width
    }

    /// The outputs: names with their nodes, in the order in which they were given.
    pub fn outputs(&self) -> &[(Text, NodeId)]
        ensures outputs { outputs_of result.now ≡ self.now.outputs }
        ensures fit { OutputsFit self.now.nodes self.now.outputs }
    {
        &self.outputs
    }

    /// The next values: each register's node with another, in the order in which they were given.
    pub fn nexts(&self) -> &[(NodeId, NodeId)]
        ensures nexts { nexts_of result.now ≡ self.now.nexts }
        ensures fit { NextsFit self.now.nodes self.now.nexts }
    {
        &self.nexts
    }

    /// The net of these nodes, outputs and next values.
    pub(crate) fn new(
        nodes: IndexSet<Entry>,
        outputs: Vec<(Text, NodeId)>,
        nexts: Vec<(NodeId, NodeId)>,
    ) -> Net
        requires { IsKept nodes.keys outputs.items nexts.items }
        ensures { result ≡ parts_of nodes.keys outputs.items nexts.items }
    {
        Net {
            nodes,
            outputs,
            nexts,
        }
    }
}
