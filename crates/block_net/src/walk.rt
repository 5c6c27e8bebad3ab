//! A walk through a block: what each key holds. A name that is read first, and was not set, stands for itself.

ghost use Rattle.std.specs.Prelude.{◌≡◌, ◌∷◌, [], IfOk, OnOk, Some, ◌++◌};
ghost use Rattle.exec_core.specs.Block.{Now, Next, key_name};
ghost use Rattle.exec_core.specs.Exec.{put, whole_held};
ghost use Rattle.tree_core.specs.Tree.{Leaf};
ghost use Rattle.names.specs.Maps.{value_of};
ghost use Rattle.name_widths.specs.DeclaredWidths.{width_at};
ghost use Rattle.block_net.specs.Terms.{Extends, IsWithin, Stands, tree_for};
ghost use Rattle.block_net.specs.Logs.{key_of};
ghost use Rattle.block_net.specs.Walks.{Fits, Grown, Shows, StandsFor, StandsHeld, Visits, Walked, env_of, pending_in, shown_id, state_of};

use crate::held::{Held, Pending};
use crate::terms::Terms;
use crate::{Effect, Key, Term, TermId};
use bit_sets::BitSet;
use design_core::{Expr, Literal, below};
use name_widths::bits_of;
use names::NameMap;
use std::alloc::Global;
use text_core::{NoMemory, Text};

/// A walk through a block: its terms, what its keys hold where they were set or read, and its log.
#[derive(Drop)]
pub(crate) struct Walk {
    pub(crate) terms: Terms,
    pub(crate) now: NameMap<Held>,
    pub(crate) next: NameMap<Held>,
    pub(crate) log: Vec<Effect>,
}

/// A name as itself, with all bits.
fn leaf(alloc: Global, terms: &mut Terms, name: &[u8]) -> Result<Held, NoMemory>
    ensures extends { OnOk result (Extends terms.old terms.new) }
    ensures stands { IfOk result (λ held. StandsHeld terms.new held (whole_held (Leaf name.now)) (Some (Leaf name.now))) }
{
    let id = terms.push(Term::Leaf(Text::new(alloc, name)?))?;
    let bits = BitSet::All;
    Ok(Held {
        pending: Pending { id, bits },
        shown: id,
    })
}

/// What is shown of a key: what is pending, where all bits are assigned.
pub(crate) fn shown(widths: &NameMap<i64>, key: &Key, pending: Pending) -> Option<TermId>
    ensures { result ≡ shown_id (width_at (value_of widths.now) (key_name (key_of key.now))) pending }
{
    if pending.bits.is_full(bits_of(widths, key.name())) {
        pending.id
    } else {
        None
    }
}

impl Walk {
    /// What a name holds now.
    fn held_now(&mut self, alloc: Global, name: &[u8]) -> Result<Held, NoMemory>
        requires { Fits self.old }
        ensures grown { OnOk result (Grown self.old self.new) }
        ensures stands { IfOk result (λ held. StandsHeld self.new.terms held (state_of self.old (Now name.now)) (env_of self.old (Now name.now))) }
    {
        match self.now.get(name) {
            Some(held) => Ok(held),
            None => {
                let held = leaf(alloc, &mut self.terms, name)?;
                self.now.put(alloc, name, held)?;
                Ok(held)
            }
        }
    }

    /// What is held for a register's next value.
    fn held_next(&mut self, alloc: Global, name: &[u8]) -> Result<Held, NoMemory>
        requires { Fits self.old }
        ensures grown { OnOk result (Grown self.old self.new) }
        ensures stands { IfOk result (λ held. StandsHeld self.new.terms held (state_of self.old (Next name.now)) (env_of self.old (Next name.now))) }
    {
        match self.next.get(name) {
            Some(held) => Ok(held),
            None => {
                let held = leaf(alloc, &mut self.terms, name)?;
                self.next.put(alloc, name, held)?;
                Ok(held)
            }
        }
    }

    /// What a name has now.
    pub(crate) fn now_of(&mut self, alloc: Global, name: &[u8]) -> Result<Option<TermId>, NoMemory>
        requires { Fits self.old }
        ensures grown { OnOk result (Grown self.old self.new) }
        ensures stands { IfOk result (λ id. Stands self.new.terms id (env_of self.old (Now name.now))) }
    {
        let held = self.held_now(alloc, name)?;
        Ok(held.shown)
    }

    /// What a key holds.
    fn held_of(&mut self, alloc: Global, key: &Key) -> Result<Held, NoMemory>
        requires { Fits self.old }
        ensures grown { OnOk result (Grown self.old self.new) }
        ensures stands { IfOk result (λ held. StandsHeld self.new.terms held (state_of self.old (key_of key.now)) (env_of self.old (key_of key.now))) }
    {
        match key {
            Key::Now(name) => self.held_now(alloc, name.bytes()),
            Key::Next(name) => self.held_next(alloc, name.bytes()),
        }
    }

    /// What is pending for a key.
    pub(crate) fn pending_of(&mut self, alloc: Global, key: &Key) -> Result<Pending, NoMemory>
        requires { Fits self.old }
        ensures grown { OnOk result (Grown self.old self.new) }
        ensures stands { IfOk result (λ pending. StandsFor self.new.terms pending (state_of self.old (key_of key.now))) }
    {
        let held = self.held_of(alloc, key)?;
        Ok(held.pending)
    }

    /// Comes to a slot.
    pub(crate) fn visit(&mut self, slot: u32, enable: Option<TermId>) -> Result<(), NoMemory>
        requires fits { Fits self.old }
        requires within { IsWithin self.old.terms enable }
        ensures { OnOk result (Visits slot enable self.old self.new) }
    {
        self.log.push(Effect::Slot(slot, enable))?;
        Ok(())
    }

    /// Puts what a key holds in its map.
    pub(crate) fn put(&mut self, alloc: Global, key: &Key, held: Held) -> Result<(), NoMemory>
        requires fits { Fits self.old }
        requires pending { IsWithin self.old.terms held.pending.id }
        requires shown { IsWithin self.old.terms held.shown }
        ensures fits { OnOk result (Fits self.new) }
        ensures terms { OnOk result (self.new.terms ≡ self.old.terms) }
        ensures log { OnOk result (self.new.log.items ≡ self.old.log.items) }
        ensures state { OnOk result (state_of self.new ≡ put (key_of key.now) (pending_in self.old.terms held.pending) (state_of self.old)) }
        ensures env { OnOk result (env_of self.new ≡ put (key_of key.now) (tree_for self.old.terms held.shown) (env_of self.old)) }
    {
        match key {
            Key::Now(name) => self.now.put(alloc, name.bytes(), held)?,
            Key::Next(name) => self.next.put(alloc, name.bytes(), held)?,
        }
        Ok(())
    }

    /// Sets a key. The log has what is shown of it from here on.
    pub(crate) fn set(
        &mut self,
        alloc: Global,
        widths: &NameMap<i64>,
        key: Key,
        pending: Pending,
    ) -> Result<(), NoMemory>
        requires fits { Fits self.old }
        requires shows { Shows (width_at (value_of widths.now)) self.old }
        requires within { IsWithin self.old.terms pending.id }
        ensures { OnOk result (Walked (width_at (value_of widths.now)) self.old self.new []
            (put (key_of key) (pending_in self.old.terms pending) (state_of self.old))) }
    {
        let shown = shown(widths, &key, pending);
        self.put(alloc, &key, Held { pending, shown })?;
        self.log.push(Effect::Set(key, shown))?;
        Ok(())
    }
}
