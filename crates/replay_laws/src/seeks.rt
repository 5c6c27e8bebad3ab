//! What seeks over the kept registers cost, in a row of four.

ghost use Rattle.std.specs.Prelude.{◌≡◌, ◌+◌, ◌≤◌, length, Some};

use sim_hist::{SimTrace, Steps};
use std::sync::ledger::Ledger;
use trace_core::Seek;

/// Seeks in a trace of 1,000 cycles that stands at its first one: to the last, back to the one before a kept one, to the kept one, and
/// beyond the last. Each is counted for itself: the first settles the net at most 999 times, the second at most 256 times, the third at
/// most once, and the last not at all. Takes no memory.
pub fn seek_over_kept<L: Ledger>(
    trace: &mut SimTrace,
    last: &mut Steps<L>,
    back: &mut Steps<L>,
    next: &mut Steps<L>,
    beyond: &mut Steps<L>,
) -> (Seek, Seek, Seek, Seek)
    requires rows { length trace.old.stim.rows ≡ 1000 }
    requires first { trace.old.cursor ≡ Some 0 }
    ensures answers { result ≡ (Seek.At, Seek.At, Seek.At, Seek.OutOfRange) }
    ensures stands { trace.new.cursor ≡ Some 768 }
    ensures net { trace.new.net ≡ trace.old.net }
    ensures stim { trace.new.stim ≡ trace.old.stim }
    ensures to_last { last.new ≤ last.old + 999 }
    ensures to_back { back.new ≤ back.old + 256 }
    ensures to_next { next.new ≤ next.old + 1 }
    ensures to_beyond { beyond.new ≡ beyond.old }
{
    let to_last = trace.seek_counted(999, last);
    let to_back = trace.seek_counted(767, back);
    let to_next = trace.seek_counted(768, next);
    let to_beyond = trace.seek_counted(1000, beyond);
    (to_last, to_back, to_next, to_beyond)
}
