//! The clients of a hub while they are served, with room for what is given back of them: each has a seat from the start to the end.

ghost use Rattle.std.specs.Prelude.{◌≡◌, ◌≤◌, [], List, ℕ, length, map, slice_index_or, false, vec_capacity, IfOk};
ghost use Rattle.link_edge.specs.Links.{Meaning};
ghost use Rattle.hub_core.specs.Clients.{AllFit, AllUsable, nothing};
ghost use Rattle.hub_core.specs.Ends.{AllOpen, ends_from, links_from, shut_unless};
ghost use Rattle.hub_core.specs.Seating.{AreSeated};

use crate::client::Client;
use crate::journal::HubJournal;
use crate::served::{ClientEnd, HubEnd, HubServed};
use link_edge::Link;
use std::alloc::Global;
use text_core::NoMemory;

/// The clients, with room for what is given back of them.
#[derive(Drop)]
pub struct Seats<L> {
    pub(crate) clients: Vec<Client<L>>,
    pub(crate) links: Vec<L>,
    pub(crate) ends: Vec<ClientEnd>,
}

/// Room for so many clients.
pub(crate) fn seats_for<L: Link>(alloc: Global, count: usize) -> Result<Seats<L>, NoMemory>
    ensures empty { IfOk result (λ seats. (seats.clients.items ≡ []) × (seats.links.items ≡ []) × (seats.ends.items ≡ [])) }
    ensures room { IfOk result (λ seats. (count ≤ vec_capacity seats.clients) × (count ≤ vec_capacity seats.links)
        × (count ≤ vec_capacity seats.ends)) }
{
    let mut clients = Vec::new(alloc);
    clients.try_reserve(count)?;
    let mut links = Vec::new(alloc);
    links.try_reserve(count)?;
    let mut ends = Vec::new(alloc);
    ends.try_reserve(count)?;
    Ok(Seats {
        clients,
        links,
        ends,
    })
}

/// A client for each link, in order.
pub(crate) fn clients_of<L: Link>(
    alloc: Global,
    links: Vec<L>,
    clients: Vec<Client<L>>,
) -> Vec<Client<L>>
    requires room { (clients.items ≡ []) × (length links.items ≤ vec_capacity clients) }
    requires usable { AllOpen (map L.meaning links.items) }
    ensures fresh { AllFit L.meaning 0 nothing nothing (map L.meaning links.items) result.items }
    ensures usable { AllUsable L.meaning result.items }
    ensures len { length result.items ≡ length links.items }
{
    let mut clients = clients;
    for link in links {
        let client = Client::new(alloc, link);
        let _ = clients.push(client);
    }
    clients
}

/// Room for the clients of a hub, for what is given back of each of them, and for who took its leave.
#[derive(Drop)]
pub struct HubRoom<L> {
    pub(crate) seats: Seats<L>,
    pub(crate) journal: HubJournal,
}

impl<L: Link> HubRoom<L> {
    ghost use Rattle.std.specs.Prelude.{IfOk};
    ghost use Rattle.hub_core.specs.Seating.{HasRoom};

    /// Room for so many clients.
    pub fn new(alloc: Global, count: usize) -> Result<HubRoom<L>, NoMemory>
        ensures { IfOk result (λ room. HasRoom count room) }
    {
        let seats = seats_for(alloc, count)?;
        let journal = HubJournal::new(alloc, count)?;
        Ok(HubRoom { seats, journal })
    }
}

/// A client for each link, where there is room for it.
pub(crate) fn seat_all<L: Link>(alloc: Global, links: Vec<L>, seats: Seats<L>) -> Seats<L>
    requires empty { (seats.clients.items ≡ []) × (seats.links.items ≡ []) × (seats.ends.items ≡ []) }
    requires room { (length links.items ≤ vec_capacity seats.clients) × (length links.items ≤ vec_capacity seats.links)
        × (length links.items ≤ vec_capacity seats.ends) }
    requires usable { AllOpen (map L.meaning links.items) }
    ensures seated { AreSeated L.meaning links.items result }
    ensures usable { AllUsable L.meaning result.clients.items }
{
    let Seats {
        clients,
        links: back,
        ends,
    } = seats;
    let clients = clients_of(alloc, links, clients);
    Seats {
        clients,
        links: back,
        ends,
    }
}

/// What is given back where there was no memory to begin.
pub(crate) fn unserved<L: Link>(alloc: Global, links: Vec<L>) -> HubServed<L>
    ensures links { result.links ≡ links }
    ensures nothing { (result.journal.items ≡ []) × (result.clients.items ≡ []) × (result.closing.items ≡ []) }
    ensures end { result.end ≡ HubEnd.NoMemory }
{
    HubServed {
        links,
        journal: Vec::new(alloc),
        clients: Vec::new(alloc),
        closing: Vec::new(alloc),
        end: HubEnd::NoMemory,
    }
}

/// The answer for a number; no behind the last.
pub(crate) fn at(answers: &[bool], k: usize) -> bool
    ensures { result ≡ slice_index_or answers.now k false }
{
    match answers.get(k) {
        Some(answer) => *answer,
        None => false,
    }
}

/// What is given back of clients, of whom these are here and these took their leave: their links, and how each was served.
pub(crate) fn finish_all<L: Link>(
    clients: Vec<Client<L>>,
    here: &[bool],
    byes: &[bool],
    links: Vec<L>,
    ends: Vec<ClientEnd>,
) -> (Vec<L>, Vec<ClientEnd>)
    requires empty { (links.items ≡ []) × (ends.items ≡ []) }
    requires room { (length clients.items ≤ vec_capacity links) × (length clients.items ≤ vec_capacity ends) }
    ensures links { map L.meaning result.0.items ≡ links_from L.meaning here.now 0 clients.items }
    ensures ends { result.1.items ≡ ends_from byes.now 0 clients.items }
{
    let mut links = links;
    let mut ends = ends;
    for client in clients {
        let k = ends.len();
        let (link, end) = client.finish(at(here, k), at(byes, k));
        let _ = links.push(link);
        let _ = ends.push(end);
    }
    (links, ends)
}
