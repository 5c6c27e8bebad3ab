//! A connection in two threads: one holds the link, and one the session, with two rings between them.

ghost use Rattle.std.specs.Prelude.{◌≡◌, ◌∷◌, [], List, Some, false, true, map, option_map};
ghost use Rattle.rtrb.specs.Ring.{sent, received, IsPair, SameProducer, SameConsumer};
ghost use Rattle.listen.specs.Pairs.{Heard};
ghost use Rattle.machine_core.specs.Reading.{Reader, IsReader};
ghost use Rattle.machine_core.specs.Machine.{opening};
ghost use Rattle.dbg_core.specs.World.{world_of};
ghost use Rattle.dbg_core.specs.State.{machine_of};
ghost use Rattle.link_edge.specs.Links.{Meaning};
ghost use Rattle.link_pump.specs.declared.rings.ToLink.TheVariants.{SessionOver};
ghost use Rattle.duo_run.specs.Connections.{Carries, Applies};
ghost use Rattle.link_pump.specs.Rings.{finishes};
ghost use Rattle.link_pump.specs.Pumps.{Pumped};
ghost use Rattle.link_pump.specs.Sides.{AreFresh};

use crate::connection::unserved;
use crate::gather::gather;
use crate::lockstep::serve_lockstep;
use crate::served::Served;
use crate::side::serve_side;
use dbg_core::{Listeners, Session};
use link_edge::{Gate, Link};
use link_pump::{Began, Pump, Rings, ToLink, push_waiting, unread};
use rtrb::{Consumer, Producer};
use std::alloc::Global;
use std::marker::Send;
use std::snapshot::Snapshot;
use std::sync::Wait;
use std::thread;
use std::thread::{Promise, Threads};
use text_core::NoMemory;
use trace_core::Trace;

/// Serves a link in two threads over these rings; in lock step, where no thread can be started.
fn serve_over<R: Threads + Wait + Sync, T: Trace + Send + Drop, L: Link, G: Gate>(
    rt: &R,
    alloc: Global,
    session: Session<T>,
    link: L,
    gate: G,
    listeners: Listeners,
    rings: Rings,
) -> Served<L>
    requires new { (told : List Heard) → machine_of session (map (λ h. Some h) told) ≡ opening told }
    requires undropped { (told : List Heard) × (map (option_map (λ b. heard (b.vtable, b.value))) listeners.boxes.items ≡ map (λ h. Some h) told) }
    requires usable { (L.meaning link).shut ≡ false }
    requires fresh { AreFresh rings.messages rings.from_link rings.to_link rings.lines rings.unapplied }
    ensures carried { Carries (L.meaning link) (L.meaning result.link) result.journal.items result.unapplied.items result.sent.items
        result.unsent.items result.end }
    ensures applied { (read : Reader) → IsReader read → (told : List Heard)
        → map (option_map (λ b. heard (b.vtable, b.value))) listeners.boxes.items ≡ map (λ h. Some h) told
        → Applies read (world_of session.table (T.samples session.trace))
        (opening told) result.journal.items result.sent.items result.unsent.items result.end }
{
    let Rings {
        messages,
        from_link,
        to_link,
        lines,
        unapplied,
    } = rings;
    thread::scope(
        thread::scope_env(),
        rt,
        move |scope| -> Served<L>
            requires new { (told : List Heard) → machine_of session (map (λ h. Some h) told) ≡ opening told }
            requires undropped { (told : List Heard) × (map (option_map (λ b. heard (b.vtable, b.value))) listeners.boxes.items ≡ map (λ h. Some h) told) }
            requires usable { (L.meaning link).shut ≡ false }
            requires fresh { AreFresh messages from_link to_link lines unapplied }
            ensures carried { Carries (L.meaning link) (L.meaning result.link) result.journal.items result.unapplied.items result.sent.items
                result.unsent.items result.end }
            ensures applied { (read : Reader) → IsReader read → (told : List Heard)
                → map (option_map (λ b. heard (b.vtable, b.value))) listeners.boxes.items ≡ map (λ h. Some h) told
                → Applies read (world_of session.table (T.samples session.trace))
                (opening told) result.journal.items result.sent.items result.unsent.items result.end }
        {
            let began = Began {
                link: Snapshot::of(&link),
                messages: Snapshot::of(&messages),
                lines: Snapshot::of(&lines),
            };
            let child = scope.spawn_with(
                began,
                move || -> Pump<L>
                    requires usable { (L.meaning link).shut ≡ false }
                    requires fresh { (sent messages ≡ []) × (received lines ≡ []) }
                { Pump::serve(rt, alloc, link, messages, lines) },
            );
            match child {
                Ok(child) => {
                    let side = serve_side(rt, alloc, session, gate, listeners, from_link, to_link);
                    gather(child.join(rt), side, unapplied)
                }
                Err(refused) => {
                    let mut to_link = to_link;
                    push_waiting(rt, &mut to_link, ToLink::SessionOver);
                    let link = unread((refused.value)(), to_link);
                    serve_lockstep(rt, alloc, session, link, gate, listeners)
                }
            }
        },
    )
}

/// Serves a link from a new session in two threads. A thread of its own polls the link and sends the lines; the calling thread applies
/// one message, and makes one turn behind the gate if the session runs, again and again. Messages and lines go through a ring of 64
/// places each. It ends as in lock step, or at once where there is no memory for the rings; where no thread can be started, it is
/// served in lock step.
///
/// A side whose ring is full lets other threads run and tries again. One that has had nothing to do for a while sleeps a millisecond at most
/// between two tries. Each line is copied once, as it goes through the ring.
///
/// Where the link is silent, it waits, and may never return.
pub fn serve_duo<R: Threads + Wait + Sync, T: Trace + Send + Drop, L: Link, G: Gate>(
    rt: &R,
    alloc: Global,
    session: Session<T>,
    link: L,
    gate: G,
    listeners: Listeners,
) -> Served<L>
    // The session is new, and no listener was dropped.
    requires new { (told : List Heard) → machine_of session (map (λ h. Some h) told) ≡ opening told }
    requires undropped { (told : List Heard) × (map (option_map (λ b. heard (b.vtable, b.value))) listeners.boxes.items ≡ map (λ h. Some h) told) }
    requires usable { (L.meaning link).shut ≡ false }

    ensures carried { Carries (L.meaning link) (L.meaning result.link) result.journal.items result.unapplied.items result.sent.items
        result.unsent.items result.end }
    ensures applied { (read : Reader) → IsReader read → (told : List Heard)
        → map (option_map (λ b. heard (b.vtable, b.value))) listeners.boxes.items ≡ map (λ h. Some h) told
        → Applies read (world_of session.table (T.samples session.trace))
        (opening told) result.journal.items result.sent.items result.unsent.items result.end }
{
    match Rings::new(alloc) {
        Ok(rings) => serve_over(rt, alloc, session, link, gate, listeners, rings),
        Err(NoMemory) => unserved(alloc, link),
    }
}
