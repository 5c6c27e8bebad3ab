//! A hub in lock step with links at hand: each round polls each client that is here, and makes one turn if the session runs.

ghost use Rattle.std.specs.Prelude.{◌≡◌, ◌<◌, ◌≤◌, ◌+◌, ◌∷◌, [], List, ℕ, length, map, option_map, true, false, slice_index_or, vec_len, vec_capacity};
ghost use Rattle.machine_core.specs.Reading.{Reader, IsReader};
ghost use Rattle.dbg_core.specs.World.{world_of};
ghost use Rattle.link_edge.specs.Links.{Meaning};
ghost use Rattle.hub_core.specs.Hubs.{HubState};
ghost use Rattle.hub_core.specs.HubJournals.{at_client};
ghost use Rattle.hub_core.specs.States.{hub_state};
ghost use Rattle.hub_core.specs.Clients.{AllUsable, open_at, nothing};
ghost use Rattle.hub_core.specs.Paces.{from_round};
ghost use Rattle.hub_core.specs.Rounds.{HubAt};

use crate::client::Client;
use crate::crowd::{deliver_all, lose_all, poll_at, ready_all, ready_at, starve_at};
use crate::hub::Hub;
use crate::journal::HubJournal;
use crate::line::HubStop;
use link_edge::{Gate, Link};
use text_core::Listed;
use trace_core::Trace;

/// A message of a client is asked of the session. Says whether there was memory for it.
fn ask_for<T: Trace + Drop, L: Link>(
    hub: &mut Hub<T>,
    clients: &mut [Client<L>],
    journal: &mut HubJournal,
    k: u32,
    text: Listed<u8>,
) -> bool
    requires here { slice_index_or hub.old.here.items k false ≡ true }
    requires within { (k < length clients.old) × (k < length journal.old.byes.items) }
    requires open { open_at k clients.old ≡ true }
    requires room { vec_len journal.old.events + 2 ≤ vec_capacity journal.old.events }
    requires usable { AllUsable L.meaning clients.old }
    ensures table { hub.new.session.table ≡ hub.old.session.table }
    ensures samples { T.samples hub.new.session.trace ≡ T.samples hub.old.session.trace }
    ensures usable { AllUsable L.meaning clients.new }
    ensures len { (length clients.new ≡ length clients.old) × (length journal.new.byes.items ≡ length journal.old.byes.items) }
    ensures keeps { (read : Reader) → IsReader read → (first : HubState) (starts : List Meaning)
        → HubAt L.meaning read (world_of hub.old.session.table (T.samples hub.old.session.trace)) first starts
        (hub_state hub.old.session hub.old.here.items (map (option_map (λ b. heard (b.vtable, b.value))) hub.old.listeners.boxes.items))
        clients.old journal.old.events.items journal.old.byes.items (λ j. at_client k j (text ∷ [])) k
        → HubAt L.meaning read (world_of hub.old.session.table (T.samples hub.old.session.trace)) first starts
        (hub_state hub.new.session hub.new.here.items (map (option_map (λ b. heard (b.vtable, b.value))) hub.new.listeners.boxes.items))
        clients.new journal.new.events.items journal.new.byes.items nothing (k + 1) }
{
    match hub.ask(k, text.items()) {
        Ok(replies) => {
            journal.note_ask(k, text, !hub.here(k));
            deliver_all(clients, replies);
            true
        }
        Err(HubStop { applied: true }) => {
            journal.note_ask(k, text, !hub.here(k));
            lose_all(clients);
            false
        }
        Err(HubStop { applied: false }) => {
            starve_at(clients, k as usize, text);
            lose_all(clients);
            false
        }
    }
}

/// One turn behind the gate, if the session runs. The room for what is told is taken before. Says whether there was memory for it.
fn turn_once<T: Trace + Drop, L: Link, G: Gate>(
    hub: &mut Hub<T>,
    clients: &mut [Client<L>],
    journal: &mut HubJournal,
    gate: &mut G,
) -> bool
    requires usable { AllUsable L.meaning clients.old }
    ensures table { hub.new.session.table ≡ hub.old.session.table }
    ensures samples { T.samples hub.new.session.trace ≡ T.samples hub.old.session.trace }
    ensures usable { AllUsable L.meaning clients.new }
    ensures len { (length clients.new ≡ length clients.old) × (length journal.new.byes.items ≡ length journal.old.byes.items) }
    ensures keeps { (read : Reader) → IsReader read → (first : HubState) (starts : List Meaning)
        → HubAt L.meaning read (world_of hub.old.session.table (T.samples hub.old.session.trace)) first starts
        (hub_state hub.old.session hub.old.here.items (map (option_map (λ b. heard (b.vtable, b.value))) hub.old.listeners.boxes.items))
        clients.old journal.old.events.items journal.old.byes.items nothing 8
        → HubAt L.meaning read (world_of hub.old.session.table (T.samples hub.old.session.trace)) first starts
        (hub_state hub.new.session hub.new.here.items (map (option_map (λ b. heard (b.vtable, b.value))) hub.new.listeners.boxes.items))
        clients.new journal.new.events.items journal.new.byes.items nothing (from_round result) }
{
    if !hub.running() {
        return true;
    }
    if journal.reserve().is_err() {
        lose_all(clients);
        return false;
    }
    ready_all(clients);
    gate.before_turn();
    match hub.turn() {
        Ok(notices) => {
            journal.add_turn();
            deliver_all(clients, notices);
            true
        }
        Err(_) => {
            journal.add_turn();
            lose_all(clients);
            false
        }
    }
}

/// What one client of a round brings: it leaves, where its link is over, or its next message is asked. The room for the reply is taken before it is
/// read. Says whether there was memory.
fn serve_one<T: Trace + Drop, L: Link>(
    hub: &mut Hub<T>,
    clients: &mut [Client<L>],
    journal: &mut HubJournal,
    k: u32,
) -> bool
    requires within { (k < length clients.old) × (k < length journal.old.byes.items) }
    requires usable { AllUsable L.meaning clients.old }
    ensures table { hub.new.session.table ≡ hub.old.session.table }
    ensures samples { T.samples hub.new.session.trace ≡ T.samples hub.old.session.trace }
    ensures usable { AllUsable L.meaning clients.new }
    ensures len { (length clients.new ≡ length clients.old) × (length journal.new.byes.items ≡ length journal.old.byes.items) }
    ensures keeps { (read : Reader) → IsReader read → (first : HubState) (starts : List Meaning)
        → HubAt L.meaning read (world_of hub.old.session.table (T.samples hub.old.session.trace)) first starts
        (hub_state hub.old.session hub.old.here.items (map (option_map (λ b. heard (b.vtable, b.value))) hub.old.listeners.boxes.items))
        clients.old journal.old.events.items journal.old.byes.items nothing k
        → HubAt L.meaning read (world_of hub.old.session.table (T.samples hub.old.session.trace)) first starts
        (hub_state hub.new.session hub.new.here.items (map (option_map (λ b. heard (b.vtable, b.value))) hub.new.listeners.boxes.items))
        clients.new journal.new.events.items journal.new.byes.items nothing (k + 1) }
{
    if !hub.here(k) {
        return true;
    }
    if journal.reserve().is_err() {
        lose_all(clients);
        return false;
    }
    ready_at(clients, k as usize);
    match poll_at(clients, k as usize) {
        Some(text) => ask_for(hub, clients, journal, k, text),
        None => {
            if clients[k as usize].outlet.over.is_some() {
                hub.leave(k);
                journal.add_left(k);
            }
            true
        }
    }
}

/// One round: each client that is here, in order, and one turn behind the gate if the session runs. Says whether there was memory for it.
fn round<T: Trace + Drop, L: Link, G: Gate>(
    hub: &mut Hub<T>,
    clients: &mut [Client<L>],
    journal: &mut HubJournal,
    gate: &mut G,
) -> bool
    requires few { (length clients.old ≤ 8) × (length journal.old.byes.items ≡ length clients.old) }
    requires usable { AllUsable L.meaning clients.old }
    ensures table { hub.new.session.table ≡ hub.old.session.table }
    ensures samples { T.samples hub.new.session.trace ≡ T.samples hub.old.session.trace }
    ensures usable { AllUsable L.meaning clients.new }
    ensures len { (length clients.new ≡ length clients.old) × (length journal.new.byes.items ≡ length journal.old.byes.items) }
    ensures keeps { (read : Reader) → IsReader read → (first : HubState) (starts : List Meaning)
        → HubAt L.meaning read (world_of hub.old.session.table (T.samples hub.old.session.trace)) first starts
        (hub_state hub.old.session hub.old.here.items (map (option_map (λ b. heard (b.vtable, b.value))) hub.old.listeners.boxes.items))
        clients.old journal.old.events.items journal.old.byes.items nothing 0
        → HubAt L.meaning read (world_of hub.old.session.table (T.samples hub.old.session.trace)) first starts
        (hub_state hub.new.session hub.new.here.items (map (option_map (λ b. heard (b.vtable, b.value))) hub.new.listeners.boxes.items))
        clients.new journal.new.events.items journal.new.byes.items nothing (from_round result) }
{
    for k in 0..clients.len() {
        if !serve_one(hub, clients, journal, k as u32) {
            return false;
        }
    }
    turn_once(hub, clients, journal, gate)
}

/// One round of these clients. Says whether there was memory for it.
pub(crate) fn round_all<T: Trace + Drop, L: Link, G: Gate>(
    hub: &mut Hub<T>,
    clients: &mut Vec<Client<L>>,
    journal: &mut HubJournal,
    gate: &mut G,
) -> bool
    requires few { (length clients.old.items ≤ 8) × (length journal.old.byes.items ≡ length clients.old.items) }
    requires usable { AllUsable L.meaning clients.old.items }
    ensures table { hub.new.session.table ≡ hub.old.session.table }
    ensures samples { T.samples hub.new.session.trace ≡ T.samples hub.old.session.trace }
    ensures usable { AllUsable L.meaning clients.new.items }
    ensures len { (length clients.new.items ≡ length clients.old.items) × (length journal.new.byes.items ≡ length journal.old.byes.items) }
    ensures keeps { (read : Reader) → IsReader read → (first : HubState) (starts : List Meaning)
        → HubAt L.meaning read (world_of hub.old.session.table (T.samples hub.old.session.trace)) first starts
        (hub_state hub.old.session hub.old.here.items (map (option_map (λ b. heard (b.vtable, b.value))) hub.old.listeners.boxes.items))
        clients.old.items journal.old.events.items journal.old.byes.items nothing 0
        → HubAt L.meaning read (world_of hub.old.session.table (T.samples hub.old.session.trace)) first starts
        (hub_state hub.new.session hub.new.here.items (map (option_map (λ b. heard (b.vtable, b.value))) hub.new.listeners.boxes.items))
        clients.new.items journal.new.events.items journal.new.byes.items nothing (from_round result) }
{
    round(hub, clients, journal, gate)
}
