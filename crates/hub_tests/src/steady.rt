//! A trace in which one node of one bit is always 1.

ghost use Rattle.std.specs.Prelude.{◌≡◌, Some, None};

use bv_core::{Bv, NodeId, Sample};
use trace_core::{Seek, Trace};

/// So many cycles of it.
#[derive(Drop)]
pub struct Steady {
    pub cycles: u64,
    pub at: Option<u64>,
    pub sample: Sample,
}

impl Trace for Steady {
    ghost use Rattle.hub_tests.specs.Constant.{constant};

    ghost samples = { λ s. constant s.cycles s.sample };

    ghost cursor = { λ s. s.at };

    fn cycles(&self) -> u64 {
        self.cycles
    }

    fn nodes(&self) -> u64 {
        1
    }

    fn seek(&mut self, t: u64) -> Seek {
        if t < self.cycles {
            self.at = Some(t);
            return Seek::At;
        }
        Seek::OutOfRange
    }

    fn value(&self, _n: NodeId) -> Sample {
        self.sample
    }
}

/// So many cycles.
pub fn steady_trace(cycles: u64) -> Steady {
    let sample = match Bv::make(1, 1) {
        Some(value) => Sample::Known(value),
        None => Sample::Unknown,
    };
    Steady {
        cycles,
        at: None,
        sample,
    }
}
