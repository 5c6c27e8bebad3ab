//! The bits of names that the statements of one branch assign, by name.

ghost use Rattle.std.specs.Prelude.{◌≡◌, OnOk};
ghost use Rattle.bit_sets.specs.BitSets.{set_of};
ghost use Rattle.names.specs.Maps.{put_value, value_of};
ghost use Rattle.check_paths.specs.Frames.{bits_at, bits_of, both, either, nothing, with_bits};

use bit_sets::BitSet;
use indexmap::IndexMap;
use std::alloc::Global;
use std::marker::Model;
use text_core::NoMemory;

/// Bits by name. Contracts see the names with their sets; `bits_of` tells the bits of a name.
#[derive(Drop)]
pub(crate) struct Frame {
    sets: IndexMap<Vec<u8>, BitSet>,
}

impl Model for Frame {
    ghost use Rattle.std.specs.Prelude.{List, ℕ, map};
    ghost use Rattle.bit_sets.specs.declared.bit_set.BitSet.{BitSet};

    ghost Value = { List (List ℕ × BitSet) };

    ghost view = { λ f. map (λ e. (e.0.items, e.1)) f.sets.entries };
}

impl Frame {
    /// No bits. Takes no memory.
    pub(crate) fn new(alloc: Global) -> Frame
        ensures { bits_of result ≡ nothing }
    {
        Frame {
            sets: IndexMap::new(alloc),
        }
    }

    /// The set of a name; None where it has none.
    fn set_at(&self, name: &[u8]) -> Option<BitSet>
        ensures { result ≡ value_of self.now name.now }
    {
        self.sets.get(name).copied()
    }

    /// The bits of a name.
    #[tactic(auto, using(crate::proofs::Framing::bits_steps))]
    pub(crate) fn bits(&self, name: &[u8]) -> BitSet
        ensures { set_of result ≡ bits_at (bits_of self.now) name.now }
    {
        match self.set_at(name) {
            Some(set) => set,
            None => BitSet::none(),
        }
    }

    /// Bits of a name as well.
    #[tactic(auto, using(crate::proofs::Framing::frame_joined))]
    pub(crate) fn join(&mut self, alloc: Global, name: &[u8], set: BitSet) -> Result<(), NoMemory>
        ensures { OnOk result (bits_of self.new ≡ with_bits name.now (set_of set) (bits_of self.old)) }
    {
        let all = self.bits(name).joined(set);
        self.put(alloc, name, all)?;
        Ok(())
    }

    /// A set of a name, in place of the one that it had.
    fn put(&mut self, alloc: Global, name: &[u8], set: BitSet) -> Result<(), NoMemory>
        ensures { OnOk result (value_of self.new ≡ put_value name.now set (value_of self.old)) }
    {
        self.sets.insert(name.to_vec(alloc)?, set)?;
        Ok(())
    }

    /// The bits that two frames have both, as well.
    pub(crate) fn join_common(
        &mut self,
        alloc: Global,
        first: &Frame,
        second: &Frame,
    ) -> Result<(), NoMemory>
        ensures { OnOk result (bits_of self.new ≡ either (bits_of self.old) (both (bits_of first.now) (bits_of second.now))) }
    {
        for (name, _) in &first.sets {
            self.join(alloc, name, first.bits(name).common(second.bits(name)))?;
        }
        Ok(())
    }
}
