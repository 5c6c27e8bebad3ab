//! What an assignment sets. A register has two keys: what it is read as in its block, and what it holds in the next cycle.

ghost use Rattle.std.specs.Prelude.{◌≡◌, IfOk};
ghost use Rattle.exec_core.specs.Block.{key_name};
ghost use Rattle.block_net.specs.Logs.{key_of};

use std::alloc::Global;
use text_core::{NoMemory, Text};

/// What an assignment sets.
#[derive(Drop)]
pub enum Key {
    /// What a name is from there on, by `=` or `let`.
    Now(Text),
    /// What a register holds in the next cycle, by `<=`.
    Next(Text),
}

impl Key {
    /// The same key again.
    pub(crate) fn copy(&self, alloc: Global) -> Result<Key, NoMemory>
        ensures { IfOk result (λ key. key ≡ self.now) }
    {
        Ok(match self {
            Key::Now(name) => Key::Now(Text::new(alloc, name.bytes())?),
            Key::Next(name) => Key::Next(Text::new(alloc, name.bytes())?),
        })
    }

    /// The name that is set.
    pub(crate) fn name(&self) -> &[u8]
        ensures { result.now ≡ key_name (key_of self.now) }
    {
        match self {
            Key::Now(name) => name.bytes(),
            Key::Next(name) => name.bytes(),
        }
    }
}
