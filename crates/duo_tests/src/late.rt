//! A trace in which one node of one bit is 1 in one cycle alone.

ghost use Rattle.std.specs.Prelude.{◌≡◌, Some, None};

use bv_core::{Bv, NodeId, Sample};
use trace_core::{Seek, Trace};

/// So many cycles, in one of which the node is what it is in no other.
#[derive(Drop)]
pub struct Late {
    pub cycles: u64,
    pub last: u64,
    pub at: Option<u64>,
    pub off: Sample,
    pub on: Sample,
}

impl Trace for Late {
    ghost use Rattle.duo_tests.specs.Constant.{once};

    ghost samples = { λ s. once s.cycles s.last s.off s.on };

    ghost cursor = { λ s. s.at };

    fn cycles(&self) -> u64 {
        self.cycles
    }

    fn nodes(&self) -> u64 {
        1
    }

    fn seek(&mut self, t: u64) -> Seek {
        if t < self.cycles {
            self.at = Some(t);
            return Seek::At;
        }
        Seek::OutOfRange
    }

    fn value(&self, _n: NodeId) -> Sample {
        match self.at {
            Some(t) if t == self.last => self.on,
            Some(_) | None => self.off,
        }
    }
}

fn bit(value: u128) -> Sample {
    match Bv::make(1, value) {
        Some(value) => Sample::Known(value),
        None => Sample::Unknown,
    }
}

/// A hundred thousand cycles, in the last of which the node is 1.
pub fn late_trace() -> Late {
    Late {
        cycles: 100_000,
        last: 99_999,
        at: None,
        off: bit(0),
        on: bit(1),
    }
}
