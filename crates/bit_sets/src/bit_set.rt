//! The bits of a name that are assigned. It decides that a name that was assigned as a whole has all bits, whatever its width is; so
//! the width of a `let` need not be known.

ghost use Rattle.std.specs.Prelude.{◌≡◌, ◌≤◌, ◌<◌, Some};
ghost use Rattle.exec_core.specs.Block.{covers};
ghost use Rattle.exec_core.specs.Exec.{all_below};
ghost use Rattle.bit_sets.specs.BitSets.{common, joined, no_bits, set_of};

/// A set of bits: all of them, or those of a mask.
#[derive(Clone, Copy)]
pub enum BitSet {
    All,
    Mask(u128),
}

impl BitSet {
    /// No bits.
    pub fn none() -> BitSet
        ensures { set_of result ≡ no_bits }
    {
        BitSet::Mask(0)
    }

    /// The bits from the high one down to the low one.
    #[tactic(auto, using(crate::proofs::Masks::part_mask))]
    pub fn of_part(high: u32, low: u32) -> BitSet
        requires within { high < 128 }
        requires order { low ≤ high }
        ensures { set_of result ≡ covers (Some (record { high = high; low = low })) }
    {
        BitSet::Mask((u128::MAX >> (127 - high)) & (u128::MAX << low))
    }

    /// The bits that are in one of two sets.
    #[tactic(auto, using(crate::proofs::Masks::mask_steps))]
    pub fn joined(self, other: BitSet) -> BitSet
        ensures { set_of result ≡ joined (set_of self) (set_of other) }
    {
        match (self, other) {
            (BitSet::Mask(a), BitSet::Mask(b)) => BitSet::Mask(a | b),
            (BitSet::All, _) | (_, BitSet::All) => BitSet::All,
        }
    }

    /// The bits that are in both of two sets.
    #[tactic(auto, using(crate::proofs::Masks::mask_steps))]
    pub fn common(self, other: BitSet) -> BitSet
        ensures { set_of result ≡ common (set_of self) (set_of other) }
    {
        match (self, other) {
            (BitSet::Mask(a), BitSet::Mask(b)) => BitSet::Mask(a & b),
            (BitSet::All, set) | (set, BitSet::All) => set,
        }
    }

    /// Whether all bits below a width are in it.
    #[tactic(auto, using(crate::proofs::Masks::full_steps))]
    pub fn is_full(self, width: u64) -> bool
        ensures { result ≡ all_below width (set_of self) }
    {
        match self {
            BitSet::All => true,
            BitSet::Mask(_) if width > 128 => false,
            BitSet::Mask(_) if width == 0 => true,
            BitSet::Mask(mask) => {
                let ones = u128::MAX >> (128 - width);
                mask & ones == ones
            }
        }
    }
}
