//! What is told of the clients once all are served: a line of each time that the door was asked.

ghost use Rattle.std.specs.Prelude.{◌≡◌, ◌≤◌, IfOk, OnOk, OnErr, IsErrOf, drop, length};
ghost use Rattle.io_edge.specs.Faults.{Rose};
ghost use Rattle.io_edge.specs.Taken.{Appends, AppendsFront};
ghost use Rattle.serve_net.specs.Visits.{lines_from};
ghost use Rattle.hub_core.specs.HubJournals.{asks_of, hub_deeds};
ghost use Rattle.hub_net.specs.Clients.{ask_in, client, told_from, visit_for, visits_in};

use hub_core::{ClientEnd, HubEvent};
use io_edge::{Sink, SinkEnd};
use link_edge::End;
use serve_net::{Visit, write_visit};
use std::alloc::Global;
use text_core::NoMemory;

/// How many requests of a client an event is.
fn asks(event: &HubEvent, client: usize) -> u64
    ensures asks { result ≡ ask_in client event.now }
    ensures few { result ≤ 1 }
{
    match event {
        HubEvent::Ask(asker, _) if *asker as usize == client => 1,
        _ => 0,
    }
}

/// How many requests of a client were applied.
fn ask_count(events: &[HubEvent], client: usize) -> u64
    ensures { result ≡ length (asks_of client (hub_deeds events.now)) }
{
    let mut count = 0;
    for event in events {
        count += asks(event, client);
    }
    count
}

/// What is told of a client, where there is one of this number and it did not end for want of memory.
fn told_of(clients: &[ClientEnd], events: &[HubEvent], client: usize) -> Option<Visit>
    ensures { result ≡ visit_for (drop client (told_from 0 clients.now (hub_deeds events.now))) }
{
    if client >= clients.len() {
        return None;
    }
    let end = clients[client].end;
    if let End::NoMemory = end {
        return None;
    }
    Some(Visit::Linked(end, ask_count(events, client)))
}

/// What is told of each time that the door was asked, where these are the times that a link came: up to the first client that ended for
/// want of memory.
pub(crate) fn visits_of(
    alloc: Global,
    came: &[bool],
    clients: &[ClientEnd],
    events: &[HubEvent],
) -> Result<Vec<Visit>, NoMemory>
    ensures { IfOk result (λ visits. visits.items ≡ visits_in came.now (told_from 0 clients.now (hub_deeds events.now))) }
{
    let mut visits = Vec::new(alloc);
    let mut client = 0;
    for linked in came {
        if !*linked {
            visits.push(Visit::NoLink)?;
            continue;
        }
        let Some(visit) = told_of(clients, events, client) else {
            return Ok(visits);
        };
        visits.push(visit)?;
        client += 1;
    }
    Ok(visits)
}

/// Writes the lines of these visits, counted from 0. Where it fails, the sink took a front of them.
pub(crate) fn write_visits<S: Sink>(
    alloc: Global,
    visits: &[Visit],
    out: &mut S,
) -> Result<(), SinkEnd>
    ensures ok { OnOk result (Appends (S.taken out.old) (S.taken out.new) (lines_from client 0 visits.now)) }
    ensures front { OnErr result (AppendsFront (S.taken out.old) (S.taken out.new) (lines_from client 0 visits.now)) }
    ensures failed { IsErrOf result SinkEnd.Failed → Rose (S.fault_count out.old) (S.fault_count out.new) }
    ensures later { S.fault_count out.old ≤ S.fault_count out.new }
{
    let mut number = 0;
    for visit in visits {
        write_visit(alloc, b"client ", number, *visit, out)?;
        number += 1;
    }
    Ok(())
}
