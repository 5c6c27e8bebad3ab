//! A conversation over a new session: it is made before anything is taken of the input, so that a want of memory for it loses nothing.

ghost use Rattle.std.specs.Prelude.{◌≡◌, ◌≤◌, List, IfOk, map, string_bytes};
ghost use Rattle.bv_core.specs.Value.{Bits};
ghost use Rattle.exec_core.specs.Whole.{Place};
ghost use Rattle.io_edge.specs.Faults.{Rose};
ghost use Rattle.io_edge.specs.Taken.{Grows};
ghost use Rattle.dap_link.specs.Conversation.{last_part};
ghost use Rattle.dap_link.specs.State.{world_in};
ghost use Rattle.dap_link.specs.Conversing.{conversation_of};
ghost use Rattle.show_net.specs.Over.{Over, RunsAs, Shows, world_over};
ghost use Rattle.dap_net.specs.Conversations.{ConversesOver, opened};

use dap_link::{Adapter, last_parts};
use dap_run::{TalkEnd, talk};
use dbg_core::Session;
use io_edge::{Sink, Source};
use show_net::{Service, Shown, ready_for};
use sim_hist::SimTrace;
use std::alloc::Global;
use std::sync::Wait;
use text_core::NoMemory;

/// An adapter over a new session of a service, with the names of the files of its design, by number, as an editor tells them.
fn adapter_for(
    alloc: Global,
    service: &Service,
    names: &[String],
) -> Result<Adapter<SimTrace>, NoMemory>
    requires shows { (over : Over) × Shows service.now over }
    ensures opened { IfOk result (λ adapter. conversation_of adapter ≡ opened) }
    ensures names { IfOk result (λ adapter. adapter.names ≡ map last_part (map (λ name. string_bytes name) names.now)) }
    ensures world { IfOk result (λ adapter. (over : Over) → Shows service.now over → (run : List (Place → Bits)) → RunsAs over run
        → world_in adapter.session ≡ world_over over run) }
{
    let Shown { table, trace } = ready_for(alloc, service)?;
    let session = Session::new(alloc, table, trace);
    let parts = last_parts(alloc, names)?;
    let adapter = Adapter::new(alloc, session, parts)?;
    Ok(adapter)
}

/// Converses with an editor over a new session of a service, from the start of the design's run: answers the messages of an input, one after
/// another, each before more of the input is waited for, and writes what is said. The names are those of the design's files by number; an
/// editor tells them by their parts behind the last slash. Ends as `TalkEnd` tells.
///
/// What was written is the text of the conversation that the messages of what was taken of the input lead to, whatever the pieces in which they
/// came; where the output failed or memory ran out, a front of it. Where no more comes of the input, it waits, and may never return.
pub fn converse<R: Wait, I: Source, S: Sink>(
    rt: &R,
    alloc: Global,
    service: &Service,
    names: Vec<String>,
    input: &mut I,
    out: &mut S,
) -> TalkEnd
    requires shows { (over : Over) × Shows service.now over }
    ensures text { (over : Over) → Shows service.now over
        → ConversesOver over (map last_part (map (λ name. string_bytes name) names.items)) result (I.left input.old) (I.left input.new)
        (S.taken out.old) (S.taken out.new) }
    ensures kept { Grows (S.taken out.old) (S.taken out.new) }
    ensures input_later { I.fault_count input.old ≤ I.fault_count input.new }
    ensures output_later { S.fault_count out.old ≤ S.fault_count out.new }
    ensures unread { result ≡ TalkEnd.NotRead → Rose (I.fault_count input.old) (I.fault_count input.new) }
    ensures untaken { result ≡ TalkEnd.NotTaken → Rose (S.fault_count out.old) (S.fault_count out.new) }
{
    match adapter_for(alloc, service, &names) {
        Ok(adapter) => talk(rt, alloc, adapter, input, out),
        Err(NoMemory) => TalkEnd::NoMemory,
    }
}
