//! A file as a trace, and why it is refused.

ghost use Rattle.std.specs.Prelude.{◌≡◌, ◌<◌, Some, None, IfOk, length, get_or, slice_get};
ghost use Rattle.trace_world.specs.Fitting.{FitsTable};
ghost use Rattle.vcd_trace.specs.Kept.{samples_of};
ghost use Rattle.vcd_trace.specs.Over.{samples_over};
ghost use Rattle.vcd_trace.specs.Refused.{refusal, Judges};

use crate::BindFault;
use crate::found::Found;
use crate::signals::signals_of;
use crate::waves::Waves;
use bv_core::{NodeId, Sample};
use std::alloc::Global;
use std::marker::Model;
use symtab::Table;
use trace_core::{Seek, Trace};
use vcd_read::Vcd;

/// A value change dump file as the trace of a table's nodes, in one of its scopes. A cycle ends where the variable `clk` of the scope
/// rises, and its samples are the values before.
///
/// It keeps the file, 4 bytes for each of its changes, 4 bytes and room to grow for each cycle, and a list for each code. No call on it
/// takes memory; a sample is found by halving the changes of its variable.
#[derive(Drop)]
pub struct VcdTrace {
    waves: Waves,
    /// For each cycle the place of the first change at the time at which it ends.
    rises: Vec<u32>,
    /// For each node its variable, where a cell or an enable names the node.
    signals: Vec<Option<Found>>,
    cursor: Option<u64>,
}

impl Model for VcdTrace {
    ghost use Rattle.vcd_trace.specs.Kept.{Replayed, IsTrace, times_at};

    ghost Value = { Replayed };

    ghost view = { λ v. record { changes = v.waves.changes; rises = times_at v.waves.changes v.rises.items; signals = v.signals.items; cursor = v.cursor } };

    ghost invariant = { λ v. IsTrace v.waves v.rises.items v.signals.items v.cursor };
}

/// The variable of a node, by its number.
fn signal_at(signals: &[Option<Found>], n: usize) -> Option<Found>
    requires { n < length signals.now }
    ensures { slice_get signals.now n ≡ Some result }
{
    signals[n]
}

/// The place of the first change at the time at which a cycle ends.
fn rise_at(rises: &[u32], t: usize) -> u32
    requires { t < length rises.now }
    ensures { result ≡ get_or rises.now t 0 }
{
    rises[t]
}

impl VcdTrace {
    /// The trace of a file in the scope of this path, the names of the scopes around it and its own, joined by dots, from the
    /// outermost. Of several variables of one name there the first counts; real and string variables do not. A node that no cell and
    /// no enable of the table names is not known in any cycle. The file is given up in either case.
    ///
    /// # Errors
    ///
    /// The first that stands: `NoScope`, where the file opens no scope of this path; and then, of the clock `clk`, of 1 bit, and the
    /// nodes that a cell or an enable names, in the order of their numbers, the first whose variable is missing, `MissingSignal`, or
    /// has another size, `SizeDiffers`. `NoMemory` is the one answer that no clause ties to a cause.
    ///
    /// Takes time linear in the table and in the file.
    pub fn over(alloc: Global, vcd: Vcd, table: &Table, scope: &str) -> Result<VcdTrace, BindFault>
        ensures ok { IfOk result (λ trace. samples_of trace ≡ samples_over vcd table.now scope.now) }
        ensures placed { IfOk result (λ trace. trace.cursor ≡ None) }
        ensures fits { IfOk result (λ trace. FitsTable table.now (samples_of trace)) }
        ensures judged { Judges (refusal vcd table.now scope.now) result }
    {
        let (clock, signals) = signals_of(alloc, &vcd, table, scope)?;
        let waves = Waves::new(alloc, vcd)?;
        let rises = waves.rises(alloc, clock)?;
        Ok(VcdTrace {
            waves,
            rises,
            signals,
            cursor: None,
        })
    }
}

impl Trace for VcdTrace {
    ghost samples = { λ v. samples_of v };

    ghost cursor = { λ v. v.cursor };

    fn cycles(&self) -> u64 {
        self.rises.len() as u64
    }

    fn nodes(&self) -> u64 {
        self.signals.len() as u64
    }

    fn seek(&mut self, t: u64) -> Seek {
        if t >= self.rises.len() as u64 {
            return Seek::OutOfRange;
        }
        self.cursor = Some(t);
        Seek::At
    }

    fn value(&self, n: NodeId) -> Sample {
        let Some(cycle) = self.cursor else {
            return Sample::Unknown;
        };
        let Some(found) = signal_at(&self.signals, n.0 as usize) else {
            return Sample::Unknown;
        };
        let rise = rise_at(&self.rises, cycle as usize);
        self.waves.value_before(found, rise)
    }
}
