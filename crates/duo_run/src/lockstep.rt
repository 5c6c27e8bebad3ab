//! A connection in lock step: one poll, its request, and one turn if the session runs, again and again.

ghost use Rattle.std.specs.Prelude.{◌≡◌, ◌≤◌, List, Some, false, length, map, option_map};
ghost use Rattle.listen.specs.Pairs.{Heard};
ghost use Rattle.machine_core.specs.Reading.{Reader, IsReader};
ghost use Rattle.machine_core.specs.Machine.{opening};
ghost use Rattle.dbg_core.specs.World.{world_of};
ghost use Rattle.dbg_core.specs.State.{machine_of};
ghost use Rattle.duo_run.specs.Connections.{Carries, Applies, InLockStep};

use crate::desk::Desk;
use crate::notes::close;
use crate::served::Served;
use dbg_core::{Listeners, Session};
use link_edge::{Gate, Link};
use link_pump::Rest;
use std::alloc::Global;
use std::mem::drop;
use std::sync::Wait;
use trace_core::Trace;

/// Serves a link from a new session in lock step. Each round polls once, applies a message, and makes one turn, behind the gate, if the
/// session runs and its client has not left; each line is sent as it is made. It ends at an accepted `bye`, where the link is closed
/// or broken, and where memory ran out; then come the last lines of the listeners that remain. At most one message is not applied. After
/// rounds in which there was nothing to do, it rests.
///
/// Where the link is silent, it waits, and may never return.
pub fn serve_lockstep<R: Wait, T: Trace + Drop, L: Link, G: Gate>(
    rt: &R,
    alloc: Global,
    session: Session<T>,
    link: L,
    gate: G,
    listeners: Listeners,
) -> Served<L>
    // The session is new, and no listener was dropped.
    requires new { (told : List Heard) → machine_of session (map (λ h. Some h) told) ≡ opening told }
    requires undropped { (told : List Heard) × (map (option_map (λ b. heard (b.vtable, b.value))) listeners.boxes.items ≡ map (λ h. Some h) told) }
    requires usable { (L.meaning link).shut ≡ false }

    ensures carried { Carries (L.meaning link) (L.meaning result.link) result.journal.items result.unapplied.items result.sent.items
        result.unsent.items result.end }
    ensures applied { (read : Reader) → IsReader read → (told : List Heard)
        → map (option_map (λ b. heard (b.vtable, b.value))) listeners.boxes.items ≡ map (λ h. Some h) told
        → Applies read (world_of session.table (T.samples session.trace))
        (opening told) result.journal.items result.sent.items result.unsent.items result.end }
    ensures in_lock_step { (read : Reader) → IsReader read → (told : List Heard)
        → map (option_map (λ b. heard (b.vtable, b.value))) listeners.boxes.items ≡ map (λ h. Some h) told
        → InLockStep read (world_of session.table (T.samples session.trace)) (opening told) (L.meaning link)
        (L.meaning result.link) result.journal.items result.end }
    ensures few { length result.unapplied.items ≤ 1 }
{
    let mut session = session;
    let mut gate = gate;
    let mut listeners = listeners;
    let mut desk = Desk::new(alloc, link);
    desk.make_room();
    let mut rest = Rest::new();
    for _ in rt.forever() {
        if desk.is_over() {
            break;
        }
        rest.step(rt);
        match desk.hear() {
            Some((text, asked)) => {
                rest.end();
                let reply = session.request(&asked, &mut listeners);
                desk.answer(text, reply);
                drop(asked);
            }
            None => {}
        }
        if session.running() && desk.is_ready() {
            rest.end();
            gate.before_turn();
            let turned = session.turn(&mut listeners);
            let notice = session.notice(turned);
            desk.turned(notice);
        }
    }
    close(&mut desk.outlet, alloc, listeners.closing_lines());
    desk.into_served()
}
