//! A map from names to values. It decides that the last value of a name is the one that it has.

ghost use Rattle.std.specs.Prelude.{◌≡◌, OnOk, OnErr};
ghost use Rattle.names.specs.Maps.{no_value, put_value, value_of};

use indexmap::IndexMap;
use std::alloc::Global;
use std::marker::Model;
use text_core::NoMemory;

/// Values by name. Contracts see the names with their values; `value_of` tells a name's.
#[derive(Drop)]
pub struct NameMap<V> {
    values: IndexMap<Vec<u8>, V>,
}

impl<V> Model for NameMap<V> {
    ghost use Rattle.std.specs.Prelude.{List, ℕ, map};

    ghost Value = { List (List ℕ × V) };

    ghost view = { λ m. map (λ e. (e.0.items, e.1)) m.values.entries };
}

impl<V: Copy> NameMap<V> {
    /// No names. Takes no memory.
    pub fn new(alloc: Global) -> NameMap<V>
        ensures { value_of result ≡ no_value }
    {
        NameMap {
            values: IndexMap::new(alloc),
        }
    }

    /// The value of a name; None where it has none.
    pub fn get(&self, name: &[u8]) -> Option<V>
        ensures { result ≡ value_of self.now name.now }
    {
        self.values.get(name).copied()
    }

    /// Puts a name in with a value, in place of the one that it had.
    pub fn put(&mut self, alloc: Global, name: &[u8], value: V) -> Result<(), NoMemory>
        ensures ok { OnOk result (value_of self.new ≡ put_value name.now value (value_of self.old)) }
        ensures err { OnErr result (self.new ≡ self.old) }
    {
        self.values.insert(name.to_vec(alloc)?, value)?;
        Ok(())
    }
}
