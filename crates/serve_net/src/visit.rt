//! What came of one time that a door was asked, and the line that tells it.

ghost use Rattle.std.specs.Prelude.{◌≡◌, ◌≤◌, ◌++◌, IfOk, OnOk, OnErr, IsErrOf};
ghost use Rattle.io_edge.specs.Faults.{Rose};
ghost use Rattle.io_edge.specs.Taken.{Appends, AppendsFront};
ghost use Rattle.serve_net.specs.Visits.{said, end_word as the_end_word, line_of};

use io_edge::{Sink, SinkEnd};
use link_edge::End;
use std::alloc::Global;
use text_core::NoMemory;

/// What came of one time that a door was asked.
#[derive(Clone, Copy)]
pub enum Visit {
    /// The door failed.
    NoLink,
    /// A link came and was served: how its connection ended, and after how many requests, from 0 to 2^64 - 1.
    Linked(End, u64),
}

/// The word for how a connection ended; none for want of memory, which has no line.
fn end_word(end: End) -> &'static [u8]
    ensures { result.now ≡ the_end_word end }
{
    match end {
        End::Bye => b"bye",
        End::Closed => b"closed",
        End::Failed => b"failed",
        End::NoMemory => b"",
    }
}

/// Adds words, and a number.
fn push_said(alloc: Global, line: &mut Vec<u8>, words: &[u8], number: u64) -> Result<(), NoMemory>
    ensures { OnOk result (line.new.items ≡ line.old.items ++ said words.now number) }
{
    let digits = format!(in alloc; "{number}")?;
    line.extend_from_slice(words)?;
    line.extend_from_slice(digits.as_bytes())?;
    Ok(())
}

/// The line of the visit of this number, counted from 0, with its line feed.
fn visit_line(alloc: Global, who: &[u8], number: u64, visit: Visit) -> Result<Vec<u8>, NoMemory>
    ensures { IfOk result (λ line. line.items ≡ line_of who.now number visit) }
{
    let mut line = Vec::new(alloc);
    push_said(alloc, &mut line, who, number)?;
    match visit {
        Visit::NoLink => line.extend_from_slice(b" door failed\n")?,
        Visit::Linked(end, requests) => {
            line.extend_from_slice(b" end ")?;
            line.extend_from_slice(end_word(end))?;
            push_said(alloc, &mut line, b" requests ", requests)?;
            line.extend_from_slice(b"\n")?;
        }
    }
    Ok(line)
}

/// Writes the line of the visit of this number, counted from 0: what comes of a link, with a space behind it, and what came of this one. Where
/// it fails, the sink took a front of it.
pub fn write_visit<S: Sink>(
    alloc: Global,
    who: &[u8],
    number: u64,
    visit: Visit,
    out: &mut S,
) -> Result<(), SinkEnd>
    ensures ok { OnOk result (Appends (S.taken out.old) (S.taken out.new) (line_of who.now number visit)) }
    ensures front { OnErr result (AppendsFront (S.taken out.old) (S.taken out.new) (line_of who.now number visit)) }
    ensures failed { IsErrOf result SinkEnd.Failed → Rose (S.fault_count out.old) (S.fault_count out.new) }
    ensures later { S.fault_count out.old ≤ S.fault_count out.new }
{
    let line = visit_line(alloc, who, number, visit)?;
    out.put(&line)?;
    Ok(())
}
