//! Conversations with an editor over an input, files and a sink in memory: the input comes in two pieces, cut at each place.

ghost use Rattle.std.specs.Prelude.{IfOk, All};
ghost use Rattle.io_edge.specs.MemorySource.{IsPiece, bytes_of};

use crate::services::{files_of, words_of};
use dbg_app::{is_dap, run_dap};
use io_edge::{MemSink, MemSource};
use std::alloc::Global;
use std::sync::Wait;
use text_core::NoMemory;

/// An editor starts, launches, sets a breakpoint in line 10, runs to it, looks at the signals and leaves; what stands behind is passed over.
static SAID: &str = "\
Content-Length: 49\r\n\r\n{\"seq\":1,\"type\":\"request\",\"command\":\"initialize\"}\
Content-Length: 45\r\n\r\n{\"seq\":2,\"type\":\"request\",\"command\":\"launch\"}\
Content-Length: 123\r\n\r\n{\"seq\":3,\"type\":\"request\",\"command\":\"setBreakpoints\",\"arguments\":{\"source\":{\"path\":\"/w/A.hg\"},\"breakpoints\":[{\"line\":10}]}}\
Content-Length: 56\r\n\r\n{\"seq\":4,\"type\":\"request\",\"command\":\"configurationDone\"}\
Content-Length: 85\r\n\r\n{\"seq\":5,\"type\":\"request\",\"command\":\"variables\",\"arguments\":{\"variablesReference\":1}}\
Content-Length: 49\r\n\r\n{\"seq\":6,\"type\":\"request\",\"command\":\"disconnect\"}\
Content-Length: x\r\n\r\n";

/// What it is told: five variables, of which `q` was not assigned yet.
static TOLD: &str = "\
Content-Length: 192\r\n\r\n{\"body\":{\"supportsConditionalBreakpoints\":true,\"supportsConfigurationDoneRequest\":true,\"supportsStepBack\":true},\"command\":\"initialize\",\"request_seq\":1,\"seq\":1,\"success\":true,\"type\":\"response\"}\
Content-Length: 46\r\n\r\n{\"event\":\"initialized\",\"seq\":2,\"type\":\"event\"}\
Content-Length: 77\r\n\r\n{\"command\":\"launch\",\"request_seq\":2,\"seq\":3,\"success\":true,\"type\":\"response\"}\
Content-Length: 145\r\n\r\n{\"body\":{\"breakpoints\":[{\"id\":1,\"line\":10,\"verified\":true}]},\"command\":\"setBreakpoints\",\"request_seq\":3,\"seq\":4,\"success\":true,\"type\":\"response\"}\
Content-Length: 88\r\n\r\n{\"command\":\"configurationDone\",\"request_seq\":4,\"seq\":5,\"success\":true,\"type\":\"response\"}\
Content-Length: 111\r\n\r\n{\"body\":{\"allThreadsStopped\":true,\"reason\":\"breakpoint\",\"threadId\":1},\"event\":\"stopped\",\"seq\":6,\"type\":\"event\"}\
Content-Length: 363\r\n\r\n{\"body\":{\"variables\":[{\"name\":\"en\",\"value\":\"1'h1\",\"variablesReference\":0},{\"name\":\"d\",\"value\":\"8'h05\",\"variablesReference\":0},{\"name\":\"q\",\"value\":\"unset\",\"variablesReference\":0},{\"name\":\"t\",\"value\":\"8'h00\",\"variablesReference\":0},{\"name\":\"r\",\"value\":\"8'h00\",\"variablesReference\":0}]},\"command\":\"variables\",\"request_seq\":5,\"seq\":7,\"success\":true,\"type\":\"response\"}\
Content-Length: 81\r\n\r\n{\"command\":\"disconnect\",\"request_seq\":6,\"seq\":8,\"success\":true,\"type\":\"response\"}";

/// A text in two pieces. A cut that leaves nothing on one side is answered with want of memory, which fails the test.
fn cut_at(alloc: Global, text: &[u8], cut: usize) -> Result<Vec<Vec<u8>>, NoMemory>
    ensures { IfOk result (λ pieces. All IsPiece (bytes_of pieces.items)) }
{
    if cut == 0 || cut >= text.len() || text.len() > 65_536 {
        return Err(NoMemory);
    }
    let first = text[..cut].to_vec(alloc)?;
    let second = text[cut..].to_vec(alloc)?;
    let pieces = vec![in alloc; first, second]?;
    Ok(pieces)
}

/// The status that a conversation over the design ends with, and what was written, where its input comes in two pieces.
fn conversed<R: Wait>(
    rt: &R,
    alloc: Global,
    text: &str,
    cut: usize,
) -> Result<(u8, MemSink), NoMemory> {
    let words = words_of(alloc, &["dap", "keep", "A.hg", "A.stim", "A"])?;
    let mut files = files_of(alloc, &[])?;
    let mut input = MemSource::new(cut_at(alloc, text.as_bytes(), cut)?, Vec::new(alloc))?;
    let mut out = MemSink::new(alloc, 4_000, Vec::new(alloc))?;
    let ended = run_dap(rt, alloc, &words, &mut files, &mut input, &mut out);
    if ended.status == 9 || !is_dap(&words) {
        return Err(NoMemory);
    }
    Ok((ended.status, out))
}

#[test]
fn an_editor_stops_at_a_line_wherever_its_input_is_cut(rt: HostRuntime) {
    for cut in 1..SAID.len() {
        match conversed(&rt, rt.alloc(), SAID, cut) {
            Ok((status, out)) => assert!(rt; status == 0 && out.bytes() == TOLD.as_bytes()),
            Err(NoMemory) => assert!(rt; false),
        }
    }
}

#[test]
fn what_is_not_framed_ends_it(rt: HostRuntime) {
    match conversed(&rt, rt.alloc(), "Content-Length: x\r\n\r\n", 9) {
        Ok((status, out)) => assert!(rt; status == 10 && out.bytes().is_empty()),
        Err(NoMemory) => assert!(rt; false),
    }
}
