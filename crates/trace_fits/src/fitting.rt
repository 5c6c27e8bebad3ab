//! Each sample of each node in each cycle is looked at once.

ghost use Rattle.std.specs.Prelude.{◌≡◌, ◌≤◌, ◌<◌, ◌*◌, ◌^◌, true, false, Some, length};
ghost use Rattle.trace_core.specs.Samples.{HasWidth};
ghost use Rattle.trace_world.specs.Fitting.{FitsTable};
ghost use Rattle.trace_fits.specs.Cycle.{HasWidths};

use bv_core::{NodeId, Sample};
use symtab::{NodeName, Table};
use trace_core::Trace;

/// Positions are below this number.
const POSITIONS: u64 = 1 << 62;

/// Whether a sample is not known, or has this width.
fn has_width(sample: Sample, width: u8) -> bool
    ensures fits { result ≡ true → HasWidth width sample }
    ensures other { result ≡ false → HasWidth width sample → ⊥ }
{
    match sample {
        Sample::Known(value) => value.width() == width,
        Sample::Unknown => true,
    }
}

/// The sample of a node in the cycle at which a trace stands.
fn sample_at<T: Trace>(trace: &T, cycle: u64, n: usize) -> Sample
    requires set { T.cursor trace.now ≡ Some cycle }
    requires node { n < (T.samples trace.now).nodes }
    ensures { result ≡ (T.samples trace.now).sample cycle n }
{
    trace.value(NodeId(n as u64))
}

/// Whether in the cycle at which a trace stands each of these nodes has a sample of its width.
fn cycle_fits<T: Trace>(nodes: &[NodeName], trace: &T, cycle: u64) -> bool
    requires set { T.cursor trace.now ≡ Some cycle }
    requires sampled { length nodes.now ≤ (T.samples trace.now).nodes }
    ensures fits { result ≡ true → HasWidths nodes.now ((T.samples trace.now).sample cycle) }
    ensures other { result ≡ false → HasWidths nodes.now ((T.samples trace.now).sample cycle) → ⊥ }
{
    for (n, node) in nodes.iter().enumerate() {
        if !has_width(sample_at(trace, cycle, n), node.width) {
            return false;
        }
    }
    true
}

/// Whether each position of so many cycles of so many slots is below 2^62.
fn are_few(cycles: u64, slots: u32) -> bool
    ensures fits { result ≡ true → cycles * slots < 2 ^ 62 }
    ensures other { result ≡ false → cycles * slots < 2 ^ 62 → ⊥ }
{
    match cycles.checked_mul(u64::from(slots)) {
        Some(positions) => positions < POSITIONS,
        None => false,
    }
}

/// Whether a trace fits a table: each node of the table is sampled, each known sample of it has its width, and cycles times slots
/// are below 2^62. The trace may stand at another cycle afterwards; its samples are as before. Takes no memory.
pub fn fits<T: Trace>(table: &Table, trace: &mut T) -> bool
    ensures kept { T.samples trace.new ≡ T.samples trace.old }
    ensures fits { result ≡ true → FitsTable table.now (T.samples trace.old) }
    ensures other { result ≡ false → FitsTable table.now (T.samples trace.old) → ⊥ }
{
    let nodes = table.parts().nodes.items();
    if nodes.len() as u64 > trace.nodes() || !are_few(trace.cycles(), table.slots()) {
        return false;
    }
    for cycle in 0..trace.cycles() {
        trace.seek(cycle);
        if !cycle_fits(nodes, trace, cycle) {
            return false;
        }
    }
    true
}
