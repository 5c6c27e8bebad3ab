//! The keys that a block assigns, each once, in the order in which they came first.

ghost use Rattle.std.specs.Prelude.{◌≡◌, [], not, IfOk, OnOk};
ghost use Rattle.exec_core.specs.Block.{same_key};
ghost use Rattle.block_net.specs.Logs.{key_of};
ghost use Rattle.block_net.specs.Walks.{among, either};
ghost use Rattle.block_net.specs.Sets.{IsKept, KeysMore, seen};

use crate::Key;
use names::NameSet;
use std::alloc::Global;
use text_core::NoMemory;

/// Keys in the order in which they came first.
#[derive(Drop)]
pub(crate) struct KeySet {
    pub(crate) keys: Vec<Key>,
    now: NameSet,
    next: NameSet,
}

impl KeySet {
    /// No keys. Takes no memory.
    pub(crate) fn new(alloc: Global) -> KeySet
        ensures kept { IsKept result }
        ensures keys { result.keys.items ≡ [] }
    {
        KeySet {
            keys: Vec::new(alloc),
            now: NameSet::new(alloc),
            next: NameSet::new(alloc),
        }
    }

    /// Notes a key, and tells whether it was new.
    fn note(&mut self, alloc: Global, key: &Key) -> Result<bool, NoMemory>
        ensures new { IfOk result (λ new. new ≡ not (seen self.old (key_of key.now))) }
        ensures seen { OnOk result (seen self.new ≡ either (seen self.old) (same_key (key_of key.now))) }
        ensures keys { OnOk result (self.new.keys ≡ self.old.keys) }
    {
        let new = match key {
            Key::Now(name) => self.now.insert(alloc, name.bytes())?,
            Key::Next(name) => self.next.insert(alloc, name.bytes())?,
        };
        Ok(new)
    }

    /// Puts a key last, unless it is there.
    fn add(&mut self, alloc: Global, key: &Key) -> Result<(), NoMemory>
        requires { IsKept self.old }
        ensures kept { OnOk result (IsKept self.new) }
        ensures more { OnOk result (KeysMore self.old self.new) }
        ensures keys { OnOk result (among self.new.keys.items ≡ either (among self.old.keys.items) (same_key (key_of key.now))) }
    {
        if self.note(alloc, key)? {
            let key = key.copy(alloc)?;
            self.keys.push(key)?;
        }
        Ok(())
    }

    /// Puts keys last, unless they are there.
    pub(crate) fn add_all(&mut self, alloc: Global, keys: &[Key]) -> Result<(), NoMemory>
        requires { IsKept self.old }
        ensures kept { OnOk result (IsKept self.new) }
        ensures more { OnOk result (KeysMore self.old self.new) }
        ensures keys { OnOk result (among self.new.keys.items ≡ either (among self.old.keys.items) (among keys.now)) }
    {
        for key in keys {
            self.add(alloc, key)?;
        }
        Ok(())
    }
}

/// Keys, each once.
pub(crate) fn distinct(alloc: Global, keys: &[Key]) -> Result<Vec<Key>, NoMemory>
    ensures { IfOk result (λ found. among found.items ≡ among keys.now) }
{
    let mut set = KeySet::new(alloc);
    set.add_all(alloc, keys)?;
    Ok(set.keys)
}
