//! The loop of a batch: a line, its request, what the session makes of it, the text of that.

ghost use Rattle.std.specs.Prelude.{◌≡◌, ◌≤◌, ◌++◌, [], IfOk, OnOk, OnErr, IsErrOf, map, option_map, if◌then◌else◌};
ghost use Rattle.io_edge.specs.Faults.{Rose};
ghost use Rattle.io_edge.specs.Taken.{Appends, AppendsFront};
ghost use Rattle.io_edge.specs.Waiting.{Passes};
ghost use Rattle.machine_core.specs.Journal.{is_bye, closing_lines, answered_lines};
ghost use Rattle.dbg_core.specs.World.{world_of};
ghost use Rattle.dbg_core.specs.State.{machine_of};
ghost use Rattle.req_json.specs.Asked.{asked};
ghost use Rattle.batch_run.specs.Texts.{session_text};
ghost use Rattle.batch_run.specs.Batch.{TakesBatch, TakesBatchFront};

use crate::lines::next_line;
use crate::put::{push_answered, push_notices};
use dbg_core::{Answered, Asked, Listeners, Session};
use io_edge::{Sink, SinkEnd, put_all, put_long};
use req_json::read_request;
use std::alloc::Global;
use text_core::NoMemory;
use trace_core::Trace;

/// What the bytes of a request ask, behind a box. Fails only where memory runs out.
pub fn asked_in(alloc: Global, line: &[u8]) -> Result<Box<Asked>, NoMemory>
    ensures { IfOk result (λ found. found.value ≡ asked line.now) }
{
    let asked = read_request(alloc, line)?;
    Ok(Box::new(alloc, asked)?)
}

/// What of a batch follows a request: nothing, where it was the last. Takes no memory.
pub fn left<'a>(answered: &Answered, behind: &'a [u8]) -> &'a [u8]
    ensures { result.now ≡ (if is_bye answered.now.reply.body then [] else behind.now) }
{
    if answered.is_last() { &[] } else { behind }
}

/// Writes what a request led to, behind a text that waits, and tells what of the batch follows.
fn tell<'a, S: Sink>(
    alloc: Global,
    text: &mut Vec<u8>,
    answered: Answered,
    behind: &'a [u8],
    out: &mut S,
) -> Result<&'a [u8], SinkEnd>
    ensures left { IfOk result (λ rest. rest.now ≡ (if is_bye answered.reply.body then [] else behind.now)) }
    ensures passes { OnOk result (Passes (S.taken out.old) (S.taken out.new) text.old.items text.new.items
        (session_text (answered_lines answered.reply answered.notice))) }
    ensures front { OnErr result (AppendsFront (S.taken out.old) (S.taken out.new)
        (text.old.items ++ session_text (answered_lines answered.reply answered.notice))) }
    ensures failed { IsErrOf result SinkEnd.Failed → Rose (S.fault_count out.old) (S.fault_count out.new) }
    ensures later { S.fault_count out.old ≤ S.fault_count out.new }
{
    push_answered(alloc, text, &answered)?;
    put_long(text, out)?;
    Ok(left(&answered, behind))
}

/// Writes a text that waits, and the closing lines of the listeners that remain.
fn close<S: Sink>(
    alloc: Global,
    text: &mut Vec<u8>,
    listeners: &Listeners,
    out: &mut S,
) -> Result<(), SinkEnd>
    ensures ok { OnOk result (Appends (S.taken out.old) (S.taken out.new)
        (text.old.items ++ session_text (closing_lines (map (option_map (λ b. heard (b.vtable, b.value))) listeners.now.boxes.items)))) }
    ensures front { OnErr result (AppendsFront (S.taken out.old) (S.taken out.new)
        (text.old.items ++ session_text (closing_lines (map (option_map (λ b. heard (b.vtable, b.value))) listeners.now.boxes.items)))) }
    ensures failed { IsErrOf result SinkEnd.Failed → Rose (S.fault_count out.old) (S.fault_count out.new) }
    ensures later { S.fault_count out.old ≤ S.fault_count out.new }
{
    let closing = listeners.closing_lines()?;
    push_notices(alloc, text, &closing)?;
    put_all(text, out)
}

/// Applies the requests of a batch to a session, a line each, and writes what it puts out: a line for each request, each of which is
/// followed by turns until the session is idle, with a line for a stop, the end or the start; up to the first `bye` that is accepted; and
/// then a line for each listener that remains. No more than 64 KiB and one answer wait to be taken. Where it fails, the sink took a
/// front of the text.
pub fn run_batch<T: Trace + Drop, S: Sink>(
    alloc: Global,
    session: Session<T>,
    listeners: Listeners,
    requests: &[u8],
    out: &mut S,
) -> Result<(), SinkEnd>
    ensures ok { OnOk result (TakesBatch (world_of session.table (T.samples session.trace))
        (machine_of session (map (option_map (λ b. heard (b.vtable, b.value))) listeners.boxes.items)) requests.now (S.taken out.old)
        (S.taken out.new)) }
    ensures front { OnErr result (TakesBatchFront (world_of session.table (T.samples session.trace))
        (machine_of session (map (option_map (λ b. heard (b.vtable, b.value))) listeners.boxes.items)) requests.now (S.taken out.old)
        (S.taken out.new)) }
    ensures failed { IsErrOf result SinkEnd.Failed → Rose (S.fault_count out.old) (S.fault_count out.new) }
    ensures later { S.fault_count out.old ≤ S.fault_count out.new }
{
    let mut session = Box::new(alloc, session)?;
    let mut listeners = listeners;
    let mut text = Vec::new(alloc);
    let mut rest = requests;
    while let Some((line, behind)) = next_line(rest) {
        let asked = asked_in(alloc, line)?;
        let answered = session.answer(&asked, &mut listeners)?;
        rest = tell(alloc, &mut text, answered, behind, out)?;
    }
    close(alloc, &mut text, &listeners, out)
}
