//! A client while it is served: its link, with what was sent over it, and what was read of it and not applied.
//!
//! It knows no hub: what it asks and what it is told are lists.

ghost use Rattle.std.specs.Prelude.{◌≡◌};
ghost use Rattle.hub_core.specs.Ends.{end_of, client_end, shut_unless};

use crate::parter::Parter;
use crate::served::ClientEnd;
use link_edge::{End, Link};
use link_pump::{Cause, Outlet};
use std::alloc::Global;
use text_core::Listed;

/// How a client ended, by whether it took its leave, and why its link is over. One that is still here when the hub ends ended for want of
/// memory.
fn end_of(took_leave: bool, over: Option<Cause>) -> End
    ensures { result ≡ end_of took_leave over }
{
    match over {
        Some(Cause::NoMemory) => End::NoMemory,
        Some(_) | None if took_leave => End::Bye,
        Some(Cause::Closed) => End::Closed,
        Some(Cause::Failed) => End::Failed,
        None => End::NoMemory,
    }
}

/// Shuts a link unless its client is still here.
fn shut_unless<L: Link>(here: bool, link: &mut L)
    ensures { L.meaning link.new ≡ shut_unless here (L.meaning link.old) }
{
    if !here {
        link.close();
    }
}

/// A link with what was sent over it, and the messages that were read of it and not applied.
#[derive(Drop)]
pub struct Client<L> {
    pub(crate) outlet: Outlet<L>,
    pub(crate) unapplied: Vec<Listed<u8>>,
    pub(crate) alloc: Global,
}

impl<L: Link> Client<L> {
    ghost use Rattle.std.specs.Prelude.{◌≡◌, ◌≤◌, ◌++◌, [], ◌∷◌, List, ℕ, None, Some, OnSome, true, false, vec_capacity};
    ghost use Rattle.link_edge.specs.Links.{Meaning, message_in};
    ghost use Rattle.hub_core.specs.Clients.{ClientFits, HasPlace};

    /// A client of which nothing was read yet. Where there is no room for a message that is not applied, nothing is.
    pub(crate) fn new(alloc: Global, link: L) -> Client<L>
        ensures fits { ClientFits (L.meaning link) (L.meaning result.outlet.link) result [] [] }
        ensures place { HasPlace result }
        ensures shut { (L.meaning result.outlet.link).shut ≡ (L.meaning link).shut }
    {
        let mut client = Client {
            outlet: Outlet {
                link,
                sent: Vec::new(alloc),
                unsent: Vec::new(alloc),
                over: None,
            },
            unapplied: Vec::new(alloc),
            alloc,
        };
        client.make_room();
        client
    }

    /// Takes the room for a message that is not applied.
    fn make_room(&mut self)
        requires { self.old.unapplied.items ≡ [] }
        ensures keeps { (start : Meaning) → ClientFits start (L.meaning self.old.outlet.link) self.old [] []
            → ClientFits start (L.meaning self.new.outlet.link) self.new [] [] }
        ensures place { HasPlace self.new }
        ensures shut { (L.meaning self.new.outlet.link).shut ≡ (L.meaning self.old.outlet.link).shut }
    {
        if self.unapplied.try_reserve(1).is_err() {
            self.outlet.lose();
        }
    }

    /// Takes the room for a line that will be sent. Where there is none, memory ran out.
    pub(crate) fn ready(&mut self)
        ensures keeps { (start : Meaning) (asked made : List (List ℕ))
            → ClientFits start (L.meaning self.old.outlet.link) self.old asked made
            → ClientFits start (L.meaning self.new.outlet.link) self.new asked made }
        ensures place { HasPlace self.old → HasPlace self.new }
        ensures shut { (L.meaning self.new.outlet.link).shut ≡ (L.meaning self.old.outlet.link).shut }
    {
        if self.outlet.sent.try_reserve(1).is_err() {
            self.outlet.lose();
        }
    }

    /// Memory ran out, and so these lines are lost, however many they are.
    pub(crate) fn lose(&mut self)
        ensures keeps { (start : Meaning) (asked made more : List (List ℕ))
            → ClientFits start (L.meaning self.old.outlet.link) self.old asked made
            → ClientFits start (L.meaning self.new.outlet.link) self.new asked (made ++ more) }
        ensures over { self.new.outlet.over ≡ Some Cause.NoMemory }
        ensures place { HasPlace self.old → HasPlace self.new }
        ensures shut { (L.meaning self.new.outlet.link).shut ≡ (L.meaning self.old.outlet.link).shut }
    {
        self.outlet.lose();
    }

    /// A message that was read is not applied: memory ran out.
    pub(crate) fn starve(&mut self, text: Listed<u8>)
        requires free { self.old.outlet.over ≡ None }
        requires place { HasPlace self.old }
        ensures keeps { (start : Meaning) (asked made : List (List ℕ))
            → ClientFits start (L.meaning self.old.outlet.link) self.old (asked ++ text ∷ []) made
            → ClientFits start (L.meaning self.new.outlet.link) self.new asked made }
        ensures place { HasPlace self.new }
        ensures shut { (L.meaning self.new.outlet.link).shut ≡ (L.meaning self.old.outlet.link).shut }
    {
        let _ = self.unapplied.push(text);
        self.outlet.lose();
    }

    /// Sends a line, or keeps it.
    pub(crate) fn deliver(&mut self, text: Listed<u8>)
        requires usable { (L.meaning self.old.outlet.link).shut ≡ false }
        ensures keeps { (start : Meaning) (asked made : List (List ℕ))
            → ClientFits start (L.meaning self.old.outlet.link) self.old asked made
            → ClientFits start (L.meaning self.new.outlet.link) self.new asked (made ++ text ∷ []) }
        ensures place { HasPlace self.old → HasPlace self.new }
        ensures shut { (L.meaning self.new.outlet.link).shut ≡ false }
    {
        self.outlet.deliver(self.alloc, text);
    }

    /// Parts from its link, since the client has left.
    pub(crate) fn part<P: Parter<L>>(&mut self, parter: &P)
        ensures keeps { (start : Meaning) (asked made : List (List ℕ))
            → ClientFits start (L.meaning self.old.outlet.link) self.old asked made
            → ClientFits start (L.meaning self.new.outlet.link) self.new asked made }
        ensures place { HasPlace self.old → HasPlace self.new }
        ensures shut { (L.meaning self.new.outlet.link).shut ≡ (L.meaning self.old.outlet.link).shut }
    {
        parter.part(&mut self.outlet.link);
    }

    /// The next message, if one has come and the link is in use.
    pub(crate) fn poll(&mut self) -> Option<Listed<u8>>
        requires usable { (L.meaning self.old.outlet.link).shut ≡ false }
        requires place { HasPlace self.old }
        ensures keeps { (start : Meaning) (asked made : List (List ℕ))
            → ClientFits start (L.meaning self.old.outlet.link) self.old asked made
            → ClientFits start (L.meaning self.new.outlet.link) self.new (asked ++ message_in result) made }
        ensures open { OnSome result (self.new.outlet.over ≡ None) }
        ensures place { HasPlace self.new }
        ensures shut { (L.meaning self.new.outlet.link).shut ≡ false }
    {
        if self.outlet.over.is_some() {
            return None;
        }
        self.outlet.poll(self.alloc)
    }

    /// What is given back: the link, which is shut unless its client is still here, and how it was served.
    pub(crate) fn finish(self, here: bool, took_leave: bool) -> (L, ClientEnd)
        ensures link { L.meaning result.0 ≡ shut_unless here (L.meaning self.outlet.link) }
        ensures end { result.1 ≡ client_end took_leave self }
    {
        let end = end_of(took_leave, self.outlet.over);
        let Client {
            outlet,
            unapplied,
            alloc: _,
        } = self;
        let Outlet {
            mut link,
            sent,
            unsent,
            over: _,
        } = outlet;
        shut_unless(here, &mut link);
        (
            link,
            ClientEnd {
                unapplied,
                sent,
                unsent,
                end,
            },
        )
    }
}
