//! What a walk tells of a block, in order: a log. From it come both the rows of the statements and the last trees, so that the two cannot differ.

use crate::{Key, TermId};

/// What a walk through a block did. No id: no tree.
#[derive(Drop)]
pub enum Effect {
    /// A key has this from here on.
    Set(Key, Option<TermId>),
    /// A slot with its enable.
    Slot(u32, Option<TermId>),
}
