//! The listeners that the project has: stops counted by line, by cycle, and by slot where a watch matches. They are one table each, so that none can
//! disturb another.

ghost use Rattle.std.specs.Prelude.{◌≡◌, [], IfOk};

use crate::tally::Tally;
use crate::{Listener, StopNote};
use std::alloc::Global;
use std::marker::Model;
use text_core::NoMemory;

/// Counts the stops of each line, of at most 1,024 lines. Of kind 1.
#[derive(Drop)]
pub struct LineHits {
    lines: Tally,
}

impl Model for LineHits {
    ghost use Rattle.std.specs.Prelude.{List, ℕ};

    ghost Value = { List (ℕ × ℕ) };

    ghost view = { λ hits. hits.lines };
}

impl LineHits {
    /// No pairs. Takes the room for all of them.
    pub fn new(alloc: Global) -> Result<LineHits, NoMemory>
        ensures { IfOk result (λ hits. hits ≡ []) }
    {
        Ok(LineHits {
            lines: Tally::new(alloc)?,
        })
    }
}

impl Listener for LineHits {
    ghost heard = { λ hits. record { kind = 1; pairs = hits } };

    fn kind(&self) -> u32 {
        1
    }

    fn stopped(&mut self, note: &StopNote) {
        self.lines.count(u64::from(note.line));
    }

    fn rows(&self) -> usize {
        self.lines.len()
    }

    fn row(&self, i: usize) -> (u64, u64) {
        self.lines.pair(i)
    }
}

/// Counts the stops of each cycle, of at most 1,024 cycles. Of kind 2.
#[derive(Drop)]
pub struct CycleHits {
    cycles: Tally,
}

impl Model for CycleHits {
    ghost use Rattle.std.specs.Prelude.{List, ℕ};

    ghost Value = { List (ℕ × ℕ) };

    ghost view = { λ hits. hits.cycles };
}

impl CycleHits {
    /// No pairs. Takes the room for all of them.
    pub fn new(alloc: Global) -> Result<CycleHits, NoMemory>
        ensures { IfOk result (λ hits. hits ≡ []) }
    {
        Ok(CycleHits {
            cycles: Tally::new(alloc)?,
        })
    }
}

impl Listener for CycleHits {
    ghost heard = { λ hits. record { kind = 2; pairs = hits } };

    fn kind(&self) -> u32 {
        2
    }

    fn stopped(&mut self, note: &StopNote) {
        self.cycles.count(note.cycle);
    }

    fn rows(&self) -> usize {
        self.cycles.len()
    }

    fn row(&self, i: usize) -> (u64, u64) {
        self.cycles.pair(i)
    }
}

/// Counts the stops of each slot at which a watch matches, of at most 1,024 slots. Of kind 3.
#[derive(Drop)]
pub struct ToggleHits {
    slots: Tally,
}

impl Model for ToggleHits {
    ghost use Rattle.std.specs.Prelude.{List, ℕ};

    ghost Value = { List (ℕ × ℕ) };

    ghost view = { λ hits. hits.slots };
}

impl ToggleHits {
    /// No pairs. Takes the room for all of them.
    pub fn new(alloc: Global) -> Result<ToggleHits, NoMemory>
        ensures { IfOk result (λ hits. hits ≡ []) }
    {
        Ok(ToggleHits {
            slots: Tally::new(alloc)?,
        })
    }
}

impl Listener for ToggleHits {
    ghost heard = { λ hits. record { kind = 3; pairs = hits } };

    fn kind(&self) -> u32 {
        3
    }

    fn stopped(&mut self, note: &StopNote) {
        if note.watches != 0 {
            self.slots.count(u64::from(note.slot));
        }
    }

    fn rows(&self) -> usize {
        self.slots.len()
    }

    fn row(&self, i: usize) -> (u64, u64) {
        self.slots.pair(i)
    }
}
