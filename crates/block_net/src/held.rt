//! What a key holds while a block is walked. It decides that what is shown is kept beside what is pending, so that a read needs no width.

use crate::TermId;
use bit_sets::BitSet;

/// What is pending for a key, and the bits of it that every path has assigned. No id: nothing is pending, since what was assigned has no
/// tree.
#[derive(Clone, Copy)]
pub(crate) struct Pending {
    pub(crate) id: Option<TermId>,
    pub(crate) bits: BitSet,
}

/// What a key holds, and what it has: what is pending, where all bits are assigned.
#[derive(Clone, Copy)]
pub(crate) struct Held {
    pub(crate) pending: Pending,
    pub(crate) shown: Option<TermId>,
}
