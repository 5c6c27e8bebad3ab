//! The bits that are assigned inside branches. It decides that each branch has a map of its own, and that what stands around it is looked up
//! from map to map: so nothing is copied where a branch begins.

ghost use Rattle.std.specs.Prelude.{◌≡◌, ◌++◌, ◌∷◌, [], ◌≢◌, OnOk};
ghost use Rattle.bit_sets.specs.BitSets.{set_of};
ghost use Rattle.check_paths.specs.Frames.{all_bits, bits_at, bits_of, both, either, nothing, seen, with_bits, with_rest};

use crate::frame::Frame;
use bit_sets::BitSet;
use std::alloc::Global;
use std::marker::Model;
use std::mem;
use text_core::NoMemory;

/// The bits of the branch that is walked, and those of the branches around it. Contracts see both, the outermost branch first.
#[derive(Drop)]
pub(crate) struct Frames {
    outer: Vec<Frame>,
    own: Frame,
}

impl Model for Frames {
    ghost use Rattle.std.specs.Prelude.{List, ℕ};
    ghost use Rattle.bit_sets.specs.declared.bit_set.BitSet.{BitSet};

    ghost Value = { List (List (List ℕ × BitSet)) × List (List ℕ × BitSet) };

    ghost view = { λ f. (f.outer.items, f.own) };
}

/// The bits of a name that frames have together.
#[tactic(auto, using(crate::proofs::Framing::frames_steps))]
fn seen_bits(outer: &[Frame], name: &[u8]) -> BitSet
    ensures { set_of result ≡ bits_at (seen outer.now) name.now }
{
    let mut set = BitSet::none();
    for frame in outer {
        set = set.joined(frame.bits(name));
    }
    set
}

impl Frames {
    /// No bits, outside of all branches. Takes no memory.
    pub(crate) fn new(alloc: Global) -> Frames
        ensures outer { result.0 ≡ [] }
        ensures own { bits_of result.1 ≡ nothing }
    {
        Frames {
            outer: Vec::new(alloc),
            own: Frame::new(alloc),
        }
    }

    /// The bits of a name.
    #[tactic(auto, using(crate::proofs::Framing::frames_joined))]
    pub(crate) fn bits(&self, name: &[u8]) -> BitSet
        ensures { set_of result ≡ bits_at (all_bits self.now) name.now }
    {
        seen_bits(&self.outer, name).joined(self.own.bits(name))
    }

    /// Bits of a name as well, in the branch.
    pub(crate) fn join(&mut self, alloc: Global, name: &[u8], set: BitSet) -> Result<(), NoMemory>
        ensures own { OnOk result (bits_of self.new.1 ≡ with_bits name.now (set_of set) (bits_of self.old.1)) }
        ensures outer { OnOk result (self.new.0 ≡ self.old.0) }
    {
        self.own.join(alloc, name, set)?;
        Ok(())
    }

    /// The bits that two frames have both, as well, in the branch.
    pub(crate) fn join_common(
        &mut self,
        alloc: Global,
        first: &Frame,
        second: &Frame,
    ) -> Result<(), NoMemory>
        ensures own { OnOk result (bits_of self.new.1 ≡ either (bits_of self.old.1) (both (bits_of first.now) (bits_of second.now))) }
        ensures outer { OnOk result (self.new.0 ≡ self.old.0) }
    {
        self.own.join_common(alloc, first, second)?;
        Ok(())
    }

    /// The bits that the arms of a `case` and the rest of it have both, as well; without an arm none.
    pub(crate) fn join_rest(
        &mut self,
        alloc: Global,
        arms: &Option<Frame>,
        rest: &Frame,
    ) -> Result<(), NoMemory>
        ensures own { OnOk result (bits_of self.new.1 ≡ either (bits_of self.old.1) (with_rest arms.now (bits_of rest.now))) }
        ensures outer { OnOk result (self.new.0 ≡ self.old.0) }
    {
        match arms {
            Some(arms) => {
                self.join_common(alloc, arms, rest)?;
                Ok(())
            }
            None => Ok(()),
        }
    }

    /// Goes into a branch of the branch, which has no bits yet.
    pub(crate) fn open(&mut self, alloc: Global) -> Result<(), NoMemory>
        ensures outer { OnOk result (self.new.0 ≡ self.old.0 ++ self.old.1 ∷ []) }
        ensures own { OnOk result (bits_of self.new.1 ≡ nothing) }
    {
        let own = mem::replace(&mut self.own, Frame::new(alloc));
        self.outer.push(own)?;
        Ok(())
    }

    /// Goes out of a branch, and gives its bits.
    pub(crate) fn close(&mut self) -> Frame
        requires { self.old.0 ≢ [] }
        ensures found { result ≡ self.old.1 }
        ensures left { self.new.0 ++ self.new.1 ∷ [] ≡ self.old.0 }
    {
        match self.outer.pop() {
            Some(own) => mem::replace(&mut self.own, own),
            None => unreachable!(),
        }
    }
}
