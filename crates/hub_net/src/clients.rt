//! A service to all clients at once: the door is asked so often, those that come are served on one session, and each is told of.

ghost use Rattle.std.specs.Prelude.{◌≡◌, ◌≤◌, ◌<◌, All, IfOk, OnOk, OnErr, IsErrOf, IsTrue, None, length, map, true};
ghost use Rattle.io_edge.specs.Faults.{Rose};
ghost use Rattle.io_edge.specs.Taken.{Appends, AppendsFront};
ghost use Rattle.link_edge.specs.Links.{IsFresh};
ghost use Rattle.serve_net.specs.Service.{end_status, is_end_status};
ghost use Rattle.serve_net.specs.Visits.{lines_from};
ghost use Rattle.show_net.specs.Over.{Over, Shows};
ghost use Rattle.hub_net.specs.Clients.{client, told_in, visits_in};
ghost use Rattle.hub_net.specs.AtOnce.{AllAreGone, IsHubOf, ServesAtOnce, ServesSomeAtOnce, told_status};

use crate::came::{Came, gather};
use crate::session::open;
use crate::told::{visits_of, write_visits};
use hub_core::{HubEnd, HubServed};
use io_edge::{Sink, SinkEnd};
use link_edge::{Door, Link};
use listen::Listener;
use run_status::Ending;
use serve_net::Visit;
use show_net::Service;
use std::alloc::Global;
use std::sync::Wait;
use std::thread::Threads;
use text_core::NoMemory;

/// What a service to all clients at once leaves: its status, which is 0 where each client has left and all was told, 8 where the output failed,
/// and 9 where memory ran out; and what the hub left, where there was a session.
#[derive(Drop)]
pub struct AtOnce<L> {
    pub status: u8,
    pub hub: Option<HubServed<L>>,
}

/// The hub of these links, at most 8, which have just come; none where none came. Fails for want of memory.
///
/// Where the links are silent, it waits, and may never return.
fn open_some<R: Threads + Wait + Sync, L: Link>(
    rt: &R,
    alloc: Global,
    service: &Service,
    links: Vec<L>,
    listeners: Vec<Box<dyn Listener>>,
) -> Result<Option<HubServed<L>>, NoMemory>
    requires shows { (over : Over) × Shows service.now over }
    requires fresh { All IsFresh (map L.meaning links.items) }
    requires seats { length links.items ≤ 8 }
    requires few { length listeners.items ≤ 65536 }
    ensures { IfOk result (λ hub. (over : Over) → Shows service.now over
        → IsHubOf (λ l. L.meaning l) over (map (λ b. heard b) listeners.items) (length links.items) hub) }
{
    if links.is_empty() {
        return Ok(None);
    }
    let hub = open(rt, alloc, service, links, listeners)?;
    Ok(Some(hub))
}

/// What is told of each time that the door was asked, where these are the times that a link came.
fn visits_with<L>(
    alloc: Global,
    came: &[bool],
    hub: &Option<HubServed<L>>,
) -> Result<Vec<Visit>, NoMemory>
    ensures { IfOk result (λ visits. visits.items ≡ visits_in came.now (told_in hub.now)) }
{
    match hub {
        Some(hub) => visits_of(alloc, came, &hub.clients, &hub.journal),
        None => visits_of(alloc, came, &[], &[]),
    }
}

/// Whether every client has left.
fn all_gone<L>(hub: &Option<HubServed<L>>) -> bool
    ensures { result ≡ true → AllAreGone hub.now }
{
    match hub {
        Some(hub) => hub.end == HubEnd::AllLeft,
        None => true,
    }
}

/// Tells what is told of each time that the door was asked, where these are the times that a link came, and whether that was all.
fn tell<L, S: Sink>(
    alloc: Global,
    came: &[bool],
    hub: &Option<HubServed<L>>,
    out: &mut S,
) -> Result<bool, SinkEnd>
    ensures ok { OnOk result (Appends (S.taken out.old) (S.taken out.new) (lines_from client 0 (visits_in came.now (told_in hub.now)))) }
    ensures whole { IfOk result (λ whole. whole ≡ true → (length (visits_in came.now (told_in hub.now)) ≡ length came.now) × AllAreGone hub.now) }
    ensures front { OnErr result (AppendsFront (S.taken out.old) (S.taken out.new) (lines_from client 0 (visits_in came.now (told_in hub.now)))) }
    ensures failed { IsErrOf result SinkEnd.Failed → Rose (S.fault_count out.old) (S.fault_count out.new) }
    ensures later { S.fault_count out.old ≤ S.fault_count out.new }
{
    let visits = visits_with(alloc, came, hub)?;
    write_visits(alloc, &visits, out)?;
    Ok(visits.len() == came.len() && all_gone(hub))
}

/// The status of a service of which so much was told.
fn status_of(told: Result<bool, SinkEnd>) -> u8
    ensures { result ≡ told_status told }
{
    let way = match told {
        Ok(true) => Ending::Written,
        Err(SinkEnd::Failed) => Ending::NotTaken,
        Ok(false) | Err(SinkEnd::NoMemory) => Ending::OutOfMemory,
    };
    way.status()
}

/// What is left where memory ran out before there was a session.
fn starved<L>() -> AtOnce<L>
    ensures status { result.status ≡ 9 }
    ensures hub { result.hub ≡ None }
{
    AtOnce {
        status: Ending::OutOfMemory.status(),
        hub: None,
    }
}

/// Asks the door so often, at most 8 times, then serves all links that came on one session with these listeners, at most 65,536, until each
/// client has left, and closes them. Where no link came there is no session. Then it writes a line of each time: `client I end E requests R`,
/// where I counts from 0, E is `bye`, `closed` or `failed`, and R is how many requests of the client were applied; or `client I door failed`. It
/// ends early where the output fails, and where memory runs out: the first client that ended so has no line, and nothing behind it has.
///
/// Where the door waits for a client, or the links are silent, it waits, and may never return.
pub fn serve_clients<R: Threads + Wait + Sync, D: Door, S: Sink>(
    rt: &R,
    alloc: Global,
    service: &Service,
    count: u16,
    door: &mut D,
    out: &mut S,
    listeners: Vec<Box<dyn Listener>>,
) -> AtOnce<D::Out>
    requires shows { (over : Over) × Shows service.now over }
    requires seats { count ≤ 8 }
    requires few { length listeners.items ≤ 65536 }
    ensures statuses { IsTrue (is_end_status result.status) }
    ensures all { result.status ≡ 0 → (over : Over) → Shows service.now over
        → ServesAtOnce (λ l. D.Out.meaning l) over (map (λ b. heard b) listeners.items) count
        (D.left door.old) (D.left door.new) (D.fault_count door.old) (D.fault_count door.new) result.hub (S.taken out.old) (S.taken out.new) }
    ensures some { 7 < result.status → (over : Over) → Shows service.now over
        → ServesSomeAtOnce (λ l. D.Out.meaning l) over (map (λ b. heard b) listeners.items) count
        (D.left door.old) (D.left door.new) (D.fault_count door.old) (D.fault_count door.new) result.hub (S.taken out.old) (S.taken out.new)
        result.status }
    ensures write { result.status ≡ 8 → Rose (S.fault_count out.old) (S.fault_count out.new) }
    ensures later { S.fault_count out.old ≤ S.fault_count out.new }
{
    let Ok(Came { links, came }) = gather(alloc, count, door) else {
        return starved();
    };
    let Ok(hub) = open_some(rt, alloc, service, links, listeners) else {
        return starved();
    };
    let status = status_of(tell(alloc, &came, &hub, out));
    AtOnce { status, hub }
}
