//! Several clients on one session, from start to end: a thread for each link, the session's side in the calling thread.
//!
//! The room for all that is given back is taken before the first thread is started, so that whoever was begun is served and joined.

ghost use Rattle.std.specs.Prelude.{◌≡◌, ◌≤◌, [], ℕ, List, IfOk, length, map, option_map, vec_capacity};
ghost use Rattle.machine_core.specs.Reading.{Reader, IsReader};
ghost use Rattle.dbg_core.specs.World.{world_of};
ghost use Rattle.link_edge.specs.Links.{Meaning};
ghost use Rattle.hub_core.specs.States.{hub_state};
ghost use Rattle.hub_core.specs.Ends.{AllOpen};
ghost use Rattle.hub_core.specs.Seating.{HasRoom};
ghost use Rattle.hub_core.specs.Served.{HubCarries, HubServes};
ghost use Rattle.hub_run.specs.Rooms.{HasRooms};

use crate::finish::finish_all;
use crate::port::{Marks, Port};
use crate::post::LinkPost;
use crate::start::start_all;
use hub_core::{ClientEnd, Hub, HubEnd, HubRoom, HubServed, serve_hub_in};
use link_edge::{Gate, Link};
use std::alloc::Global;
use std::marker::Send;
use std::sync::Wait;
use std::thread;
use std::thread::Threads;
use text_core::NoMemory;
use trace_core::Trace;

/// Room for the ports of links and what goes with them, for the clients, and for what is given back.
#[derive(Drop)]
pub struct Rooms<S, P, L> {
    hub: HubRoom<P>,
    posts: Vec<S>,
    ports: Vec<P>,
    links: Vec<L>,
    served: Vec<ClientEnd>,
}

/// Room for so many clients.
fn rooms_for<S: Drop, P: Link, L: Link>(
    alloc: Global,
    count: usize,
) -> Result<Rooms<S, P, L>, NoMemory>
    ensures { IfOk result (λ rooms. HasRooms count rooms) }
{
    let hub = HubRoom::new(alloc, count)?;
    let mut posts = Vec::new(alloc);
    posts.try_reserve(count)?;
    let mut ports = Vec::new(alloc);
    ports.try_reserve(count)?;
    let mut links = Vec::new(alloc);
    links.try_reserve(count)?;
    let mut served = Vec::new(alloc);
    served.try_reserve(count)?;
    Ok(Rooms {
        hub,
        posts,
        ports,
        links,
        served,
    })
}

/// Serves clients in this room.
fn serve_rooms<'r, R: Threads + Wait + Sync, T: Trace + Send + Drop, L: Link, G: Gate>(
    rt: &'r R,
    alloc: Global,
    hub: Hub<T>,
    links: Vec<L>,
    gate: G,
    rooms: Rooms<Option<LinkPost<L>>, Port<'r, R, L>, L>,
) -> HubServed<L>
    requires clients { length links.items ≡ length hub.here.items }
    requires usable { AllOpen (map L.meaning links.items) }
    requires rooms { HasRooms (length links.items) rooms }
    ensures { (read : Reader) → IsReader read → HubCarries read (world_of hub.session.table (T.samples hub.session.trace))
        (hub_state hub.session hub.here.items (map (option_map (λ b. heard (b.vtable, b.value))) hub.listeners.boxes.items))
        (map L.meaning links.items) (map L.meaning result.links.items) result.clients.items result.journal.items result.closing.items result.end }
{
    let Rooms {
        hub: room,
        posts,
        ports,
        links: back,
        served,
    } = rooms;
    thread::scope(
        thread::scope_env(),
        rt,
        move |scope| -> HubServed<L>
            requires clients { length links.items ≡ length hub.here.items }
            requires usable { AllOpen (map L.meaning links.items) }
            requires room { HasRoom (length links.items) room }
            requires ports { (posts.items ≡ []) × (ports.items ≡ []) × (length links.items ≤ vec_capacity posts) × (length links.items ≤ vec_capacity ports) }
            requires back { (back.items ≡ []) × (served.items ≡ []) × (length links.items ≤ vec_capacity back) × (length links.items ≤ vec_capacity served) }
            ensures { (read : Reader) → IsReader read → HubCarries read (world_of hub.session.table (T.samples hub.session.trace))
                (hub_state hub.session hub.here.items (map (option_map (λ b. heard (b.vtable, b.value))) hub.listeners.boxes.items))
                (map L.meaning links.items) (map L.meaning result.links.items) result.clients.items result.journal.items result.closing.items result.end }
        {
            let (posts, ports) = start_all(scope, rt, alloc, links, posts, ports);
            let HubServed {
                links: ports,
                journal,
                clients,
                closing,
                end,
            } = serve_hub_in(rt, alloc, hub, room, ports, gate, Marks);
            let (links, clients) = finish_all(rt, posts, ports, clients, back, served);
            HubServed {
                links,
                journal,
                clients,
                closing,
                end,
            }
        },
    )
}

/// What is given back where there was no memory to begin.
fn unserved<L: Link>(alloc: Global, links: Vec<L>) -> HubServed<L>
    ensures links { result.links ≡ links }
    ensures nothing { (result.journal.items ≡ []) × (result.clients.items ≡ []) × (result.closing.items ≡ []) }
    ensures end { result.end ≡ HubEnd.NoMemory }
{
    HubServed {
        links,
        journal: Vec::new(alloc),
        clients: Vec::new(alloc),
        closing: Vec::new(alloc),
        end: HubEnd::NoMemory,
    }
}

/// Serves the clients of a hub, each over a link in a thread of its own. The calling thread goes through the clients round by round: it takes
/// at most one message of each that is here, in order, applies it, and makes one turn, behind the gate, if the session runs. Messages and lines
/// go through a ring of 64 places each. A link whose thread cannot be started, or for whose rings there is no memory, is polled by the calling
/// thread itself.
///
/// It ends where each client has left, by an accepted `bye` or since its link is over, and where memory ran out. The link of a client that left
/// is shut by its own thread as soon as its last lines are sent, while the others are served; the others come back as they are. Messages that
/// were read of a client and not applied are given back with it. Where there was no memory to begin, no client was served, and the links are as
/// they were.
///
/// A side whose ring is full lets other threads run and tries again. One that has had nothing to do for a while sleeps a millisecond at most
/// between two tries. Where the links are silent, it waits, and may never return.
pub fn serve_hub<R: Threads + Wait + Sync, T: Trace + Send + Drop, L: Link, G: Gate>(
    rt: &R,
    alloc: Global,
    hub: Hub<T>,
    links: Vec<L>,
    gate: G,
) -> HubServed<L>
    // As many links as clients, and none is shut.
    requires clients { length links.items ≡ length hub.here.items }
    requires usable { AllOpen (map L.meaning links.items) }
    ensures served { (read : Reader) → IsReader read → HubServes read (world_of hub.session.table (T.samples hub.session.trace))
        (hub_state hub.session hub.here.items (map (option_map (λ b. heard (b.vtable, b.value))) hub.listeners.boxes.items))
        (map L.meaning links.items) (map L.meaning result.links.items) result.clients.items result.journal.items result.closing.items result.end }
{
    match rooms_for(alloc, links.len()) {
        Ok(rooms) => serve_rooms(rt, alloc, hub, links, gate, rooms),
        Err(NoMemory) => unserved(alloc, links),
    }
}
