//! The journal of a hub, where consecutive turns stand as one event, and which of its clients took their leave.

ghost use Rattle.std.specs.Prelude.{◌≡◌, ◌++◌, [], ◌∷◌, ◌<◌, ◌≤◌, ◌+◌, IfOk, OnOk, vec_len, vec_capacity, length, replicate, false};

use crate::event::HubEvent;
use std::alloc::Global;
use text_core::{Listed, NoMemory};

/// The events so far, in order, and whether each client took its leave in them.
#[derive(Drop)]
pub struct HubJournal {
    pub(crate) events: Vec<HubEvent>,
    pub(crate) byes: Vec<bool>,
}

impl HubJournal {
    ghost use Rattle.hub_core.specs.declared.event.HubEvent.TheVariants.{Ask, Left};
    ghost use Rattle.hub_core.specs.HubJournals.{hub_deeds};
    ghost use Rattle.hub_core.specs.Rounds.{TurnAdded, asked_deeds, byes_after};

    /// No events, of so many clients.
    pub(crate) fn new(alloc: Global, clients: usize) -> Result<HubJournal, NoMemory>
        ensures events { IfOk result (λ journal. journal.events.items ≡ []) }
        ensures byes { IfOk result (λ journal. journal.byes.items ≡ replicate clients false) }
    {
        let mut byes = Vec::new(alloc);
        byes.resize(clients, false)?;
        Ok(HubJournal {
            events: Vec::new(alloc),
            byes,
        })
    }

    /// Takes the room for two events more.
    pub(crate) fn reserve(&mut self) -> Result<(), NoMemory>
        ensures room { OnOk result (vec_len self.new.events + 2 ≤ vec_capacity self.new.events) }
        ensures same { self.new.events.items ≡ self.old.events.items }
        ensures byes { self.new.byes ≡ self.old.byes }
    {
        self.events.try_reserve(2)?;
        Ok(())
    }

    /// Puts a request last.
    fn add_ask(&mut self, client: u32, text: Listed<u8>)
        requires { vec_len self.old.events + 2 ≤ vec_capacity self.old.events }
        ensures added { self.new.events.items ≡ self.old.events.items ++ Ask client text ∷ [] }
        ensures byes { self.new.byes ≡ self.old.byes }
        ensures room { vec_len self.new.events < vec_capacity self.new.events }
    {
        let _ = self.events.push(HubEvent::Ask(client, text));
    }

    /// Puts a request last, and a leave behind one by which its client took its leave.
    pub(crate) fn note_ask(&mut self, client: u32, text: Listed<u8>, left: bool)
        requires room { vec_len self.old.events + 2 ≤ vec_capacity self.old.events }
        requires client { client < length self.old.byes.items }
        ensures deeds { hub_deeds self.new.events.items ≡ hub_deeds self.old.events.items ++ asked_deeds left client text }
        ensures byes { self.new.byes.items ≡ byes_after left client self.old.byes.items }
    {
        self.add_ask(client, text);
        if left {
            self.add_left(client);
            self.byes[client as usize] = true;
        }
    }

    /// Puts a leave last.
    pub(crate) fn add_left(&mut self, client: u32)
        requires { vec_len self.old.events < vec_capacity self.old.events }
        ensures added { self.new.events.items ≡ self.old.events.items ++ Left client ∷ [] }
        ensures byes { self.new.byes ≡ self.old.byes }
    {
        let _ = self.events.push(HubEvent::Left(client));
    }

    /// Puts a turn last.
    pub(crate) fn add_turn(&mut self)
        requires { vec_len self.old.events < vec_capacity self.old.events }
        ensures added { TurnAdded self.old.events.items self.new.events.items }
        ensures byes { self.new.byes ≡ self.old.byes }
    {
        match self.events.pop() {
            Some(HubEvent::Turns(n)) if n < u64::MAX => {
                let _ = self.events.push(HubEvent::Turns(n + 1));
            }
            Some(last) => {
                let _ = self.events.push(last);
                let _ = self.events.push(HubEvent::Turns(1));
            }
            None => {
                let _ = self.events.push(HubEvent::Turns(1));
            }
        }
    }
}
