//! The line of a demo.

ghost use Rattle.std.specs.Prelude.{◌≡◌, ◌++◌, IfOk, OnOk, codes};
ghost use Rattle.demo_run.specs.Chain.{row_count};
ghost use Rattle.demo_run.specs.Line.{said, world_part, stops_part};
ghost use Rattle.demo_run.specs.Summing.{summary_line as the_summary_line};

use crate::tally::Counts;
use std::alloc::Global;
use text_core::NoMemory;

/// What a demo tells: how many instances and slots there are, and the counts of the stops.
#[derive(Clone, Copy)]
pub(crate) struct Summary {
    pub(crate) instances: u64,
    pub(crate) slots: u64,
    pub(crate) counts: Counts,
}

/// Adds words, and a number.
fn push_said(alloc: Global, line: &mut Vec<u8>, words: &[u8], number: u64) -> Result<(), NoMemory>
    ensures { OnOk result (line.new.items ≡ line.old.items ++ said words.now number) }
{
    let digits = format!(in alloc; "{number}")?;
    line.extend_from_slice(words)?;
    line.extend_from_slice(digits.as_bytes())?;
    Ok(())
}

/// Adds what is told of the world.
fn push_world(alloc: Global, line: &mut Vec<u8>, instances: u64, slots: u64) -> Result<(), NoMemory>
    ensures { OnOk result (line.new.items ≡ line.old.items ++ world_part instances slots) }
{
    push_said(alloc, line, b" instances ", instances)?;
    push_said(alloc, line, b" slots ", slots)?;
    push_said(alloc, line, b" cycles ", 1000)
}

/// Adds what is told of the stops.
fn push_stops(alloc: Global, line: &mut Vec<u8>, counts: Counts) -> Result<(), NoMemory>
    ensures { OnOk result (line.new.items ≡ line.old.items ++ stops_part counts.forward counts.backward counts.threads) }
{
    push_said(alloc, line, b" forward ", counts.forward)?;
    push_said(alloc, line, b" backward ", counts.backward)?;
    push_said(alloc, line, b" threads ", counts.threads)
}

/// The line of a demo, with its line feed.
pub(crate) fn summary_line(
    alloc: Global,
    number: u16,
    summary: Summary,
) -> Result<Vec<u8>, NoMemory>
    ensures { IfOk result (λ line. line.items ≡ the_summary_line number summary) }
{
    let mut line = Vec::new(alloc);
    push_said(alloc, &mut line, b"demo ", u64::from(number))?;
    push_world(alloc, &mut line, summary.instances, summary.slots)?;
    push_stops(alloc, &mut line, summary.counts)?;
    line.push(b'\n')?;
    Ok(line)
}
