//! The journal of a connection, where consecutive turns stand as one event.

ghost use Rattle.std.specs.Prelude.{◌≡◌, ◌++◌, [], ◌∷◌, ◌<◌, OnOk, vec_len, vec_capacity};

use crate::event::Event;
use std::alloc::Global;
use text_core::{Listed, NoMemory};

/// The events so far, in order.
#[derive(Drop)]
pub struct Journal {
    pub(crate) events: Vec<Event>,
}

impl Journal {
    ghost use Rattle.duo_run.specs.declared.event.Event.TheVariants.{Request};
    ghost use Rattle.duo_run.specs.Journals.{TurnAdded};

    /// No events. Takes no memory.
    pub(crate) fn new(alloc: Global) -> Journal
        ensures { result.events.items ≡ [] }
    {
        Journal {
            events: Vec::new(alloc),
        }
    }

    /// Takes the room for one event more.
    pub(crate) fn reserve(&mut self) -> Result<(), NoMemory>
        ensures room { OnOk result (vec_len self.new.events < vec_capacity self.new.events) }
        ensures same { self.new.events.items ≡ self.old.events.items }
    {
        self.events.try_reserve(1)?;
        Ok(())
    }

    /// Puts a request last.
    pub(crate) fn add_request(&mut self, text: Listed<u8>)
        requires { vec_len self.old.events < vec_capacity self.old.events }
        ensures { self.new.events.items ≡ self.old.events.items ++ Request text ∷ [] }
    {
        let _ = self.events.push(Event::Request(text));
    }

    /// Puts a turn last.
    pub(crate) fn add_turn(&mut self)
        requires { vec_len self.old.events < vec_capacity self.old.events }
        ensures { TurnAdded self.old.events.items self.new.events.items }
    {
        match self.events.pop() {
            Some(Event::Turns(n)) if n < u64::MAX => {
                let _ = self.events.push(Event::Turns(n + 1));
            }
            Some(last) => {
                let _ = self.events.push(last);
                let _ = self.events.push(Event::Turns(1));
            }
            None => {
                let _ = self.events.push(Event::Turns(1));
            }
        }
    }
}
