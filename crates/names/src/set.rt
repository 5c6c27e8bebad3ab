//! A set of names in the order in which they came. It decides that a name that is there already stays where it is.

ghost use Rattle.std.specs.Prelude.{◌≡◌, ◌≤◌, ◌<◌, [], ◌∷◌, ◌++◌, length, take, drop, IfOk, OnOk, OnErr, IfSome, IsSome, Some, ◌↔◌, Contains, slice_get, position, bytes_eq, not, if◌then◌else◌};
ghost use Rattle.names.specs.Known.{Begins, both, either, has, none, with};

use indexmap::IndexSet;
use std::alloc::Global;
use std::marker::Model;
use text_core::NoMemory;

/// A set of names. Contracts see them in the order in which they came, no two the same; `has` tells which are in it.
#[derive(Drop)]
pub struct NameSet {
    names: IndexSet<Vec<u8>>,
}

impl Model for NameSet {
    ghost use Rattle.std.specs.Prelude.{List, ℕ, map};

    ghost Value = { List (List ℕ) };

    ghost view = { λ n. map (λ name. name.items) n.names.keys };
}

impl NameSet {
    /// No names. Takes no memory.
    pub fn new(alloc: Global) -> NameSet
        ensures known { has result ≡ none }
        ensures names { result ≡ [] }
    {
        NameSet {
            names: IndexSet::new(alloc),
        }
    }

    /// Whether a name is among them.
    pub fn contains(&self, name: &[u8]) -> bool
        ensures { result ≡ has self.now name.now }
    {
        self.names.contains(name)
    }

    /// Puts a name last, unless it is there, and tells whether it was new.
    fn put(&mut self, alloc: Global, name: &[u8]) -> Result<bool, NoMemory>
        ensures added { IfOk result (λ added. added ≡ not (has self.old name.now)) }
        ensures names { IfOk result (λ added. self.new ≡ (if added then self.old ++ name.now ∷ [] else self.old)) }
        ensures err { OnErr result (self.new ≡ self.old) }
    {
        Ok(self.names.insert(name.to_vec(alloc)?)?)
    }

    /// Puts a name in, and tells whether it was new.
    pub fn insert(&mut self, alloc: Global, name: &[u8]) -> Result<bool, NoMemory>
        ensures added { IfOk result (λ added. added ≡ not (has self.old name.now)) }
        ensures names { IfOk result (λ added. self.new ≡ (if added then self.old ++ name.now ∷ [] else self.old)) }
        ensures known { OnOk result (has self.new ≡ with name.now (has self.old)) }
        ensures err { OnErr result (self.new ≡ self.old) }
    {
        let added = self.put(alloc, name)?;
        Ok(added)
    }

    /// How many names there are.
    pub fn count(&self) -> usize
        ensures { result ≡ length self.now }
    {
        self.names.len()
    }

    /// The place of a name, counted from 0. None where the name is not there.
    pub fn place_of(&self, name: &[u8]) -> Option<usize>
        ensures place { result ≡ position (bytes_eq name.now) self.now }
        ensures within { IfSome result (λ place. place < length self.now) }
        ensures named { IfSome result (λ place. slice_get self.now place ≡ Some name.now) }
        ensures there { IsSome result ↔ Contains self.now name.now }
    {
        self.names.get_index_of(name)
    }

    /// Moves the names from a place on into a new set. The place is at most their number.
    pub fn split_off(&mut self, at: usize) -> Result<NameSet, NoMemory>
        requires { at ≤ length self.old }
        ensures kept { OnOk result (self.new ≡ take at self.old) }
        ensures tail { IfOk result (λ tail. tail ≡ drop at self.old) }
        ensures err { OnErr result (self.new ≡ self.old) }
    {
        Ok(NameSet {
            names: self.names.split_off(at)?,
        })
    }

    /// Puts one of two sets' names in, if it is in the other too.
    fn insert_if(&mut self, alloc: Global, name: &[u8], other: &NameSet) -> Result<(), NoMemory>
        ensures known { OnOk result (has self.new ≡ (if has other.now name.now then with name.now (has self.old) else has self.old)) }
        ensures before { OnOk result (Begins self.old self.new) }
        ensures err { OnErr result (self.new ≡ self.old) }
    {
        if other.contains(name) {
            self.insert(alloc, name)?;
        }
        Ok(())
    }

    /// Puts the names in that two sets have both, behind those that are there. After an error it may have some of them.
    pub fn insert_common(
        &mut self,
        alloc: Global,
        first: &NameSet,
        second: &NameSet,
    ) -> Result<(), NoMemory>
        ensures known { OnOk result (has self.new ≡ either (has self.old) (both (has first.now) (has second.now))) }
        ensures before { Begins self.old self.new }
    {
        for name in first.names.iter() {
            self.insert_if(alloc, name, second)?;
        }
        Ok(())
    }
}
