//! A trace in memory, of two nodes in three cycles.

ghost use Rattle.std.specs.Prelude.{◌≡◌, IfOk, length};

use bv_core::{Bv, NodeId, Sample};
use std::alloc::{AllocError, Global};
use std::test::Fail;
use text_core::NoMemory;
use trace_core::{FakeTrace, Seek, Trace};

/// A sample of a width: a number, or none.
fn sample(width: u8, number: Option<u128>) -> Sample {
    match number {
        Some(number) => match Bv::make(width, number) {
            Some(value) => Sample::Known(value),
            None => Sample::Unknown,
        },
        None => Sample::Unknown,
    }
}

/// The samples of a cycle: of 8 bits and of 1 bit.
type Cycle = (Option<u128>, Option<u128>);

/// The trace's samples, cycle by cycle.
static SAMPLES: [Cycle; 3] = [(Some(7), Some(0)), (None, Some(1)), (Some(9), None)];

/// The samples of a cycle.
fn row(alloc: Global, cycle: &Cycle) -> Result<Vec<Sample>, AllocError>
    ensures { IfOk result (λ row. length row.items ≡ 2) }
{
    [sample(8, cycle.0), sample(1, cycle.1)].to_vec(alloc)
}

/// The trace. It takes three rows of a known length, since a closure that looks at each row costs a minute to prove.
fn trace(alloc: Global) -> Result<FakeTrace, NoMemory> {
    let mut rows = Vec::new(alloc);
    rows.push(row(alloc, &SAMPLES[0])?)?;
    rows.push(row(alloc, &SAMPLES[1])?)?;
    rows.push(row(alloc, &SAMPLES[2])?)?;
    Ok(FakeTrace::new(rows, 2)?)
}

/// Whether the trace has these samples in a cycle, even after a seek to no cycle.
fn has(trace: &mut FakeTrace, cycle: u64, samples: &Cycle) -> bool {
    if trace.nodes() != 2 || cycle >= trace.cycles() {
        return false;
    }
    trace.seek(cycle) == Seek::At
        && trace.seek(u64::MAX) == Seek::OutOfRange
        && trace.value(NodeId(0)) == sample(8, samples.0)
        && trace.value(NodeId(1)) == sample(1, samples.1)
}

#[test]
fn a_trace_has_its_samples_and_a_seek_beyond_leaves_the_cursor(
    rt: HostRuntime,
) -> Result<(), Fail> {
    let Ok(mut trace) = trace(rt.alloc()) else {
        return Err("memory lasts".into());
    };
    assert!(rt; trace.cycles() == 3 && trace.nodes() == 2);
    for (cycle, samples) in SAMPLES.iter().enumerate() {
        assert!(rt; has(&mut trace, cycle as u64, samples), "cycle {cycle}");
    }
    assert!(rt; has(&mut trace, 0, &SAMPLES[0]));
    assert!(rt; trace.seek(3) == Seek::OutOfRange);
    Ok(())
}
