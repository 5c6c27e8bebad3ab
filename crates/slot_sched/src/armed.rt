//! An armed breakpoint. It has a file of its own, as what is kept in its type stands on few definitions.

ghost use Rattle.std.specs.List.Sorted.{IsNonDecreasingBy};

use cond_lang::CondText;
use site_core::Trap;

/// An armed breakpoint: its number, its slots, the instance that was named, if one was, the text of its condition, if there is
/// one, and where it waits, slot after slot.
#[derive(Drop)]
pub(crate) struct Armed {
    pub(crate) number: u64,
    pub(crate) slots: Vec<u32>,
    pub(crate) instance: Option<u32>,
    pub(crate) text: Option<CondText>,
    pub(crate) traps: Vec<Trap>,
    ghost in_order: { IsNonDecreasingBy (λ t. t.slot) traps.items },
}
