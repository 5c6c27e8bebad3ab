//! The versions of a block's own names. A name that was given none last has none.

ghost use Rattle.std.specs.Prelude.{◌≡◌, OnOk};
ghost use Rattle.dep_order.specs.Blocks.{no_versions, put_version, version_of};

use names::NameMap;
use std::alloc::Global;
use std::marker::Model;
use text_core::NoMemory;

/// The versions of the own names of a block. Contracts see the names that were given one or lost it; `version_of` tells a
/// name's.
#[derive(Drop)]
pub(crate) struct VersionMap {
    versions: NameMap<Option<u32>>,
}

impl Model for VersionMap {
    ghost use Rattle.std.specs.Prelude.{List, ℕ, Option};

    ghost Value = { List (List ℕ × Option ℕ) };

    ghost view = { λ m. m.versions };
}

impl VersionMap {
    /// No versions. Takes no memory.
    pub(crate) fn new(alloc: Global) -> VersionMap
        ensures { version_of result ≡ no_versions }
    {
        VersionMap {
            versions: NameMap::new(alloc),
        }
    }

    /// The version of a name.
    pub(crate) fn get(&self, name: &[u8]) -> Option<u32>
        ensures { result ≡ version_of self.now name.now }
    {
        self.versions.get(name)?
    }

    /// Gives a name a version, or takes the one that it had.
    pub(crate) fn set(
        &mut self,
        alloc: Global,
        name: &[u8],
        version: Option<u32>,
    ) -> Result<(), NoMemory>
        ensures { OnOk result (version_of self.new ≡ put_version name.now version (version_of self.old)) }
    {
        self.versions.put(alloc, name, version)?;
        Ok(())
    }
}
