//! The session's side of a connection in two threads: it is served in lock step with its ends of the rings.

ghost use Rattle.std.specs.Prelude.{◌≡◌, [], List, Some, map, option_map};
ghost use Rattle.listen.specs.Pairs.{Heard};
ghost use Rattle.machine_core.specs.Reading.{Reader, IsReader};
ghost use Rattle.machine_core.specs.Machine.{opening};
ghost use Rattle.dbg_core.specs.World.{world_of};
ghost use Rattle.dbg_core.specs.State.{machine_of};
ghost use Rattle.rtrb.specs.Ring.{sent, received, SameProducer, SameConsumer};
ghost use Rattle.duo_run.specs.Connections.{Applies};
ghost use Rattle.duo_run.specs.Journals.{requests_of};
ghost use Rattle.link_pump.specs.Sides.{IsSide};

use crate::event::Event;
use crate::lockstep::serve_lockstep;
use crate::served::Served;
use dbg_core::{Listeners, Session};
use link_edge::{End, Gate};
use link_pump::{Ends, FromLink, ToLink};
use rtrb::{Consumer, Producer};
use std::alloc::Global;
use std::sync::Wait;
use text_core::Listed;
use trace_core::Trace;

/// What the session's side leaves: its ends of the rings, what was done with the session, the messages that were popped and not
/// applied, the lines that were pushed, those that were not, as the link was over, and how it ended.
#[derive(Drop)]
pub struct Side {
    pub(crate) messages: Consumer<FromLink>,
    pub(crate) lines: Producer<ToLink>,
    pub(crate) journal: Vec<Event>,
    pub(crate) unapplied: Vec<Listed<u8>>,
    pub(crate) pushed: Vec<Listed<u8>>,
    pub(crate) kept: Vec<Listed<u8>>,
    pub(crate) end: End,
}

/// Serves the ends of the rings from a new session, between the mark that it has begun and the mark that it is over.
///
/// Where no message comes, it waits, and may never return.
pub(crate) fn serve_side<R: Wait + Sync, T: Trace + Drop, G: Gate>(
    rt: &R,
    alloc: Global,
    session: Session<T>,
    gate: G,
    listeners: Listeners,
    messages: Consumer<FromLink>,
    lines: Producer<ToLink>,
) -> Side
    requires new { (told : List Heard) → machine_of session (map (λ h. Some h) told) ≡ opening told }
    requires undropped { (told : List Heard) × (map (option_map (λ b. heard (b.vtable, b.value))) listeners.boxes.items ≡ map (λ h. Some h) told) }
    requires fresh { (received messages ≡ []) × (sent lines ≡ []) }
    ensures side { IsSide result.messages result.lines (requests_of result.journal.items) result.unapplied.items result.pushed.items result.end }
    ensures applied { (read : Reader) → IsReader read → (told : List Heard)
        → map (option_map (λ b. heard (b.vtable, b.value))) listeners.boxes.items ≡ map (λ h. Some h) told
        → Applies read (world_of session.table (T.samples session.trace))
        (opening told) result.journal.items result.pushed.items result.kept.items result.end }
    ensures messages { SameConsumer messages result.messages }
    ensures lines { SameProducer lines result.lines }
{
    let ends = Ends::begin(rt, messages, lines);
    let Served {
        link,
        journal,
        unapplied,
        sent,
        unsent,
        end,
    } = serve_lockstep(rt, alloc, session, ends, gate, listeners);
    let (messages, lines) = link.finish();
    Side {
        messages,
        lines,
        journal,
        unapplied,
        pushed: sent,
        kept: unsent,
        end,
    }
}
