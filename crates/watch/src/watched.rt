//! An armed watch. It has a file of its own, as what is kept in its type stands on few definitions.

use cond_lang::CondText;
use site_core::Trap;

/// An armed watch: its number, its slots, its instance, the text of its expression, and where it waits, slot after slot.
#[derive(Drop)]
pub(crate) struct Watched {
    pub(crate) number: u64,
    pub(crate) slots: Vec<u32>,
    pub(crate) instance: u32,
    pub(crate) text: CondText,
    pub(crate) traps: Vec<Trap>,
}
