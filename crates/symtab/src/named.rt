//! What is found by name: nodes, instances and names in scope, no two of one name.

ghost use Rattle.std.specs.Prelude.{◌≡◌, List, ℕ, IfOk, IfSome, IsSome, ◌↔◌, map};
ghost use Rattle.symtab.specs.Apart.{AreApart};

use crate::{InstanceParts, NodeName};
use names::NameSet;
use std::alloc::Global;
use text_core::{NoMemory, Text};

/// What has a name.
pub trait Named {
    ghost name_of: { Self → List ℕ };

    /// The bytes of the name.
    fn name(&self) -> &[u8]
        ensures { result.now ≡ name_of self.now };
}

impl Named for NodeName {
    ghost name_of = { λ node. node.name };

    fn name(&self) -> &[u8] {
        self.name.bytes()
    }
}

impl Named for InstanceParts {
    ghost name_of = { λ instance. instance.path };

    fn name(&self) -> &[u8] {
        self.path.bytes()
    }
}

impl Named for Text {
    ghost name_of = { λ text. text };

    fn name(&self) -> &[u8] {
        self.bytes()
    }
}

/// The names of these items, in order. None where two of them are the same.
pub(crate) fn distinct_names<T: Named>(
    alloc: Global,
    items: &[T],
) -> Result<Option<NameSet>, NoMemory>
    ensures apart { IfOk result (λ found. IsSome found ↔ AreApart (map (λ item. T.name_of item) items.now)) }
    ensures names { IfOk result (λ found. IfSome found (λ names. names ≡ map (λ item. T.name_of item) items.now)) }
{
    let mut names = NameSet::new(alloc);
    for item in items {
        if !names.insert(alloc, item.name())? {
            return Ok(None);
        }
    }
    Ok(Some(names))
}
