//! A node as the table of made nodes keys it: with its width, which the nodes below it decide and equality therefore need not look at.

use crate::Node;
use std::hash::{Hash, Hasher};

/// A node with its width, which the nodes below it decide.
#[derive(Drop)]
pub(crate) struct Entry {
    pub(crate) node: Node,
    pub(crate) width: u8,
}

impl PartialEq for Entry {
    ghost use Rattle.net_core.specs.Nodes.{shape_of, same_shape};
    ghost use Rattle.net_core.specs.Same.{entries_per};

    ghost eq = { λ a b. same_shape (shape_of a.node) (shape_of b.node) };

    ghost laws = { entries_per };

    fn eq(&self, other: &Entry) -> bool {
        self.node == other.node
    }
}

impl Eq for Entry {
    ghost use Rattle.net_core.specs.Same.{entries_equiv};

    ghost laws = { entries_equiv };
}

impl Hash for Entry {
    ghost use Rattle.net_core.specs.Nodes.{shape_of};
    ghost use Rattle.net_core.specs.Hashed.{fed_shape};
    ghost use Rattle.net_core.specs.Same.{entries_fed};

    ghost hash_input = { λ a. fed_shape (shape_of a.node) };

    ghost respects_eq = { entries_fed };

    fn hash<H: Hasher>(&self, state: &mut H) {
        self.node.hash(state);
    }
}
