//! A trace that is told outright, for tests, and for values that no design gives.

ghost use Rattle.std.specs.Prelude.{◌≡◌, ◌<◌, All, length, map, None, Some, IfOk};
ghost use Rattle.std.specs.Option.{ForSome};
ghost use Rattle.trace_core.specs.Rows.{TraceInMemory, samples_of};

use crate::{Seek, Trace};
use bv_core::{NodeId, Sample};
use std::marker::Model;
use text_core::NoMemory;

/// A trace in memory.
#[derive(Drop)]
pub struct FakeTrace {
    rows: Vec<Vec<Sample>>,
    nodes: u64,
    cursor: Option<u64>,

    ghost long: { All (λ row. length row.items ≡ nodes) rows.items },

    ghost within: { ForSome cursor (λ cycle. cycle < length rows.items) },
}

impl Model for FakeTrace {
    ghost use Rattle.std.specs.Prelude.{map};
    ghost use Rattle.trace_core.specs.Rows.{TraceInMemory};

    ghost Value = { TraceInMemory };

    ghost view = { λ f. record { rows = map (λ row. row.items) f.rows.items; nodes = f.nodes; cursor = f.cursor } };
}

impl FakeTrace {
    /// The trace with these samples: a list for each cycle, with a sample for each node. Its cursor stands at no cycle.
    pub fn new(samples: Vec<Vec<Sample>>, nodes: u64) -> Result<FakeTrace, NoMemory>
        requires { All (λ row. length row.items ≡ nodes) samples.items }
        ensures { IfOk result (λ made. made ≡ record { rows = map (λ row. row.items) samples.items; nodes = nodes; cursor = None }) }
    {
        Ok(FakeTrace {
            rows: samples,
            nodes,
            cursor: None,
        })
    }
}

impl Trace for FakeTrace {
    ghost samples = { λ f. samples_of f.rows f.nodes };

    ghost cursor = { λ f. f.cursor };

    fn cycles(&self) -> u64 {
        self.rows.len() as u64
    }

    fn nodes(&self) -> u64 {
        self.nodes
    }

    fn seek(&mut self, t: u64) -> Seek {
        if t < self.rows.len() as u64 {
            self.cursor = Some(t);
            Seek::At
        } else {
            Seek::OutOfRange
        }
    }

    fn value(&self, n: NodeId) -> Sample {
        let Some(cycle) = self.cursor else {
            return Sample::Unknown;
        };
        self.rows[cycle as usize][n.0 as usize]
    }
}
