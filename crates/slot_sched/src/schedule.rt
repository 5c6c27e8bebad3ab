//! What a schedule holds. It has a file of its own, as what is kept in its type stands on few definitions.

ghost use Rattle.std.specs.Prelude.{◌≡◌, ◌≤◌, true, length};
ghost use Rattle.slot_sched.specs.Spans.{are_spanned, TellGaps};

use crate::armed::Armed;
use crate::spans::Span;
use std::alloc::Global;

/// The breakpoints that are armed, and for each slot which of them may wait there.
#[derive(Drop)]
pub struct Schedule {
    pub(crate) armed: Vec<Armed>,
    pub(crate) given: u64,
    pub(crate) alloc: Global,
    pub(crate) spans: Vec<Span>,
    ghost few: { length armed.items ≤ 1024 },
    ghost spanned: { are_spanned spans.items 0 armed.items ≡ true },
    ghost gaps: { TellGaps spans.items },
}
