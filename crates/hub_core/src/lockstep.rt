//! A hub in lock step with the links of its clients, from start to end.
//!
//! Each round polls each client that is here once, in order, and makes one turn if the session runs. The links of clients that left are shut
//! once the loop is over, and not between two rounds: to shut one may take time, and the others wait for their lines.

ghost use Rattle.std.specs.Prelude.{◌≡◌, ◌≤◌, [], List, ℕ, length, map, option_map, true, false, slice_index_or, replicate, vec_capacity, IsTrue, IsFalse};
ghost use Rattle.machine_core.specs.Reading.{Reader, IsReader};
ghost use Rattle.machine_core.specs.Journal.{closing_lines};
ghost use Rattle.req_json.specs.Texts.{texts_of};
ghost use Rattle.dbg_core.specs.World.{world_of};
ghost use Rattle.link_edge.specs.Links.{Meaning};
ghost use Rattle.hub_core.specs.States.{hub_state};
ghost use Rattle.hub_core.specs.Clients.{AllFit, AllUsable, nothing};
ghost use Rattle.hub_core.specs.Ends.{AllApplied, AllOpen, ends_from, links_from};
ghost use Rattle.hub_core.specs.Seating.{HasRoom};
ghost use Rattle.hub_core.specs.Served.{HubCarries, HubServes};

use crate::crowd::part_gone;
use crate::hub::Hub;
use crate::journal::HubJournal;
use crate::parter::{Later, Parter};
use crate::rounds::round_all;
use crate::seats::{HubRoom, Seats, finish_all, seat_all, unserved};
use crate::served::{HubEnd, HubServed};
use link_edge::{Gate, Link};
use link_pump::Rest;
use std::alloc::Global;
use std::sync::Wait;
use text_core::{Listed, NoMemory};
use trace_core::Trace;

/// Whether nothing more is to be done: memory ran out, or no client is here.
fn is_done<T: Trace + Drop>(hub: &Hub<T>, fed: bool) -> bool
    ensures fed { IsFalse result → fed ≡ true }
    ensures none { IsTrue result → fed ≡ true → (k : ℕ) → slice_index_or hub.now.here.items k false ≡ false }
{
    !fed || !hub.anyone()
}

/// What is told last, and how a hub ends, by whether there was memory.
fn close_hub<T: Trace + Drop>(alloc: Global, hub: Hub<T>, fed: bool) -> (Vec<Listed<u8>>, HubEnd)
    ensures closing { result.1 ≡ HubEnd.AllLeft
        → result.0.items ≡ texts_of (closing_lines (map (option_map (λ b. heard (b.vtable, b.value))) hub.listeners.boxes.items)) }
    ensures none { result.1 ≡ HubEnd.NoMemory → result.0.items ≡ [] }
    ensures fed { result.1 ≡ HubEnd.AllLeft → fed ≡ true }
{
    if !fed {
        return (Vec::new(alloc), HubEnd::NoMemory);
    }
    match hub.close() {
        Ok(lines) => (lines, HubEnd::AllLeft),
        Err(NoMemory) => (Vec::new(alloc), HubEnd::NoMemory),
    }
}

/// What is given back, once the last round was made.
fn finish<T: Trace + Drop, L: Link>(
    alloc: Global,
    hub: Hub<T>,
    seats: Seats<L>,
    journal: HubJournal,
    fed: bool,
) -> HubServed<L>
    requires empty { (seats.links.items ≡ []) × (seats.ends.items ≡ []) }
    requires room { (length seats.clients.items ≤ vec_capacity seats.links) × (length seats.clients.items ≤ vec_capacity seats.ends) }
    ensures journal { result.journal.items ≡ journal.events.items }
    ensures links { map L.meaning result.links.items ≡ links_from L.meaning hub.here.items 0 seats.clients.items }
    ensures clients { result.clients.items ≡ ends_from journal.byes.items 0 seats.clients.items }
    ensures closing { result.end ≡ HubEnd.AllLeft
        → result.closing.items ≡ texts_of (closing_lines (map (option_map (λ b. heard (b.vtable, b.value))) hub.listeners.boxes.items)) }
    ensures none { result.end ≡ HubEnd.NoMemory → result.closing.items ≡ [] }
    ensures fed { result.end ≡ HubEnd.AllLeft → fed ≡ true }
{
    let Seats {
        clients,
        links,
        ends,
    } = seats;
    let HubJournal { events, byes } = journal;
    let (links, clients) = finish_all(clients, hub.who_is_here(), &byes, links, ends);
    let (closing, end) = close_hub(alloc, hub, fed);
    HubServed {
        links,
        journal: events,
        clients,
        closing,
        end,
    }
}

/// Serves clients until none of them is here, or memory ran out.
fn serve_seats<R: Wait, T: Trace + Drop, L: Link, G: Gate, P: Parter<L>>(
    rt: &R,
    alloc: Global,
    hub: Hub<T>,
    seats: Seats<L>,
    journal: HubJournal,
    gate: G,
    parter: &P,
) -> HubServed<L>
    requires empty { (seats.links.items ≡ []) × (seats.ends.items ≡ []) }
    requires room { (length seats.clients.items ≤ vec_capacity seats.links) × (length seats.clients.items ≤ vec_capacity seats.ends) }
    requires few { length seats.clients.items ≤ 8 }
    requires new { (journal.events.items ≡ []) × (journal.byes.items ≡ replicate (length seats.clients.items) false) }
    requires usable { AllUsable L.meaning seats.clients.items }
    ensures carried { (read : Reader) → IsReader read → (starts : List Meaning) → AllOpen starts
        → AllFit L.meaning 0 nothing nothing starts seats.clients.items
        → HubCarries read (world_of hub.session.table (T.samples hub.session.trace))
        (hub_state hub.session hub.here.items (map (option_map (λ b. heard (b.vtable, b.value))) hub.listeners.boxes.items))
        starts (map L.meaning result.links.items) result.clients.items result.journal.items result.closing.items result.end }
    ensures applied { AllApplied result.clients.items }
{
    let Seats {
        mut clients,
        links,
        ends,
    } = seats;
    let mut hub = hub;
    let mut journal = journal;
    let mut gate = gate;
    let mut rest = Rest::new();
    let mut fed = true;
    for _ in rt.forever() {
        if is_done(&hub, fed) {
            break;
        }
        rest.step(rt);
        let events = journal.events.len();
        fed = round_all(&mut hub, &mut clients, &mut journal, &mut gate);
        part_gone(&mut clients, hub.who_is_here(), parter);
        wake(&mut rest, hub.running() || journal.events.len() != events);
    }
    let seats = Seats {
        clients,
        links,
        ends,
    };
    finish(alloc, hub, seats, journal, fed)
}

/// Rests no longer, where there was something to do.
fn wake(rest: &mut Rest, busy: bool) {
    if busy {
        rest.end();
    }
}

/// Serves the clients of a hub as `serve_hub_parting` does, in room that was taken for them: it always begins.
///
/// Where the links are silent, it waits, and may never return.
pub fn serve_hub_in<R: Wait, T: Trace + Drop, L: Link, G: Gate, P: Parter<L>>(
    rt: &R,
    alloc: Global,
    hub: Hub<T>,
    room: HubRoom<L>,
    links: Vec<L>,
    gate: G,
    parter: P,
) -> HubServed<L>
    // As many links as clients, for which there is room, and none is shut.
    requires clients { length links.items ≡ length hub.here.items }
    requires usable { AllOpen (map L.meaning links.items) }
    requires room { HasRoom (length links.items) room }
    ensures carried { (read : Reader) → IsReader read → HubCarries read (world_of hub.session.table (T.samples hub.session.trace))
        (hub_state hub.session hub.here.items (map (option_map (λ b. heard (b.vtable, b.value))) hub.listeners.boxes.items))
        (map L.meaning links.items) (map L.meaning result.links.items) result.clients.items result.journal.items result.closing.items result.end }
    ensures applied { AllApplied result.clients.items }
{
    let HubRoom { seats, journal } = room;
    let seats = seat_all(alloc, links, seats);
    serve_seats(rt, alloc, hub, seats, journal, gate, &parter)
}

/// Serves the clients of a hub over their links, as `serve_hub_lockstep` does; a link whose client has left is parted from it between two
/// rounds.
///
/// Where the links are silent, it waits, and may never return.
pub fn serve_hub_parting<R: Wait, T: Trace + Drop, L: Link, G: Gate, P: Parter<L>>(
    rt: &R,
    alloc: Global,
    hub: Hub<T>,
    links: Vec<L>,
    gate: G,
    parter: P,
) -> HubServed<L>
    // As many links as clients, and none is shut.
    requires clients { length links.items ≡ length hub.here.items }
    requires usable { AllOpen (map L.meaning links.items) }
    ensures served { (read : Reader) → IsReader read → HubServes read (world_of hub.session.table (T.samples hub.session.trace))
        (hub_state hub.session hub.here.items (map (option_map (λ b. heard (b.vtable, b.value))) hub.listeners.boxes.items))
        (map L.meaning links.items) (map L.meaning result.links.items) result.clients.items result.journal.items result.closing.items result.end }
    ensures applied { AllApplied result.clients.items }
{
    match HubRoom::new(alloc, links.len()) {
        Ok(room) => serve_hub_in(rt, alloc, hub, room, links, gate, parter),
        Err(NoMemory) => unserved(alloc, links),
    }
}

/// Serves the clients of a hub over their links in lock step. Each round polls each client that is here once, in order, and applies its
/// message; then it makes one turn, behind the gate, if the session runs. After rounds in which there was nothing to do, it rests. It ends
/// where each client has left, by an accepted `bye` or since its link is over, and where memory ran out. The links of clients that left come
/// back shut, the others as they are. Where there was no memory to begin, no client was served, and the links are as they were.
///
/// Where the links are silent, it waits, and may never return.
pub fn serve_hub_lockstep<R: Wait, T: Trace + Drop, L: Link, G: Gate>(
    rt: &R,
    alloc: Global,
    hub: Hub<T>,
    links: Vec<L>,
    gate: G,
) -> HubServed<L>
    // As many links as clients, and none is shut.
    requires clients { length links.items ≡ length hub.here.items }
    requires usable { AllOpen (map L.meaning links.items) }
    ensures served { (read : Reader) → IsReader read → HubServes read (world_of hub.session.table (T.samples hub.session.trace))
        (hub_state hub.session hub.here.items (map (option_map (λ b. heard (b.vtable, b.value))) hub.listeners.boxes.items))
        (map L.meaning links.items) (map L.meaning result.links.items) result.clients.items result.journal.items result.closing.items result.end }
    // Nothing is read that is not applied, but for one message where memory ran out.
    ensures applied { AllApplied result.clients.items }
{
    serve_hub_parting(rt, alloc, hub, links, gate, Later)
}
