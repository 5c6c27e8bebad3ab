//! A connection while it is served, but for its session.

ghost use Rattle.std.specs.Prelude.{◌≡◌, ◌≢◌, ◌≤◌, ◌<◌, ◌++◌, [], ◌∷◌, List, ℕ, None, Some, true, false, IfOk, OnErr, OnOk, IfSome, IfNone, OnSome, ◌⊎◌, IsTrue, IsFalse, MatchOption, map, is_some, length, vec_len, vec_capacity, ◌||◌};
ghost use Rattle.link_edge.specs.Links.{Meaning};
ghost use Rattle.machine_core.specs.Journal.{Line, Replied, Noticed, is_bye, told_lines};
ghost use Rattle.req_json.specs.Asked.{asked};
ghost use Rattle.req_json.specs.Replies.{reply_text};

use crate::journal::Journal;
use crate::notes::note;
use crate::served::Served;
use dbg_core::{Asked, Body, Notice, Reply};
use link_edge::{End, Link};
use link_pump::{Cause, Outlet};
use req_json::{read_request, reply_text};
use std::alloc::Global;
use text_core::{Listed, NoMemory};

/// A link with what was sent over it, what was done with its session, what was read and not applied, and whether the client took its
/// leave.
#[derive(Drop)]
pub struct Desk<L> {
    pub(crate) outlet: Outlet<L>,
    pub(crate) journal: Journal,
    pub(crate) unapplied: Vec<Listed<u8>>,
    pub(crate) left: bool,
    pub(crate) alloc: Global,
}

impl<L: Link> Desk<L> {
    ghost use Rattle.req_json.specs.Texts.{texts_of};
    ghost use Rattle.duo_run.specs.Deeds.{Deed, Asks, Goes};
    ghost use Rattle.duo_run.specs.Polls.{Poll};
    ghost use Rattle.link_pump.specs.Outlets.{Delivered, Lasts};
    ghost use Rattle.duo_run.specs.Desks.{Held, NoRequest, HasRoom, end_of};

    /// A connection of which nothing was served yet. Takes no memory.
    pub(crate) fn new(alloc: Global, link: L) -> Desk<L>
        ensures held { Held (L.meaning link) (L.meaning result.outlet.link) result [] [] [] [] }
        ensures left { result.left ≡ false }
        ensures over { result.outlet.over ≡ None }
        ensures link { L.meaning result.outlet.link ≡ L.meaning link }
        ensures unapplied { result.unapplied.items ≡ [] }
    {
        Desk {
            outlet: Outlet {
                link,
                sent: Vec::new(alloc),
                unsent: Vec::new(alloc),
                over: None,
            },
            journal: Journal::new(alloc),
            unapplied: Vec::new(alloc),
            left: false,
            alloc,
        }
    }

    /// Takes the room for a message that is not applied.
    pub(crate) fn make_room(&mut self)
        requires { self.old.unapplied.items ≡ [] }
        ensures keeps { (start : Meaning) (polls : List Poll) (deeds : List Deed) (made : List (List ℕ))
            → Held start (L.meaning self.old.outlet.link) self.old polls deeds [] made
            → Held start (L.meaning self.new.outlet.link) self.new polls deeds [] made }
        ensures room { HasRoom self.new }
        ensures left { self.new.left ≡ self.old.left }
        ensures over { (self.new.outlet.over ≡ self.old.outlet.over) ⊎ (self.new.outlet.over ≡ Some Cause.NoMemory) }
        ensures link { L.meaning self.new.outlet.link ≡ L.meaning self.old.outlet.link }
    {
        if self.unapplied.try_reserve(1).is_err() {
            self.outlet.lose();
        }
    }

    /// Whether nothing more is to be read.
    pub(crate) fn is_over(&self) -> bool
        ensures over { result ≡ self.now.left || is_some self.now.outlet.over }
        ensures open { IsFalse result → (self.now.left ≡ false) × (self.now.outlet.over ≡ None) }
    {
        self.left || self.outlet.over.is_some()
    }

    /// Puts a message for which memory ran out with those that are not applied.
    fn starve(&mut self, text: Listed<u8>)
        requires room { (self.old.unapplied.items ≡ []) × (1 ≤ vec_capacity self.old.unapplied) }
        ensures keeps { (start : Meaning) (polls : List Poll) (deeds : List Deed) (made : List (List ℕ))
            → Held start (L.meaning self.old.outlet.link) self.old polls deeds (text ∷ []) made
            → Held start (L.meaning self.new.outlet.link) self.new polls deeds [] made }
        ensures over { self.new.outlet.over ≡ Some Cause.NoMemory }
        ensures few { length self.new.unapplied.items ≤ 1 }
        ensures left { self.new.left ≡ self.old.left }
        ensures link { L.meaning self.new.outlet.link ≡ L.meaning self.old.outlet.link }
    {
        let _ = self.unapplied.push(text);
        self.outlet.lose();
    }

    /// What a message asks, once there is room for it in the journal.
    fn read(&mut self, text: &[u8]) -> Result<Asked, NoMemory>
        ensures asked { IfOk result (λ found. found ≡ asked text.now) }
        ensures room { OnOk result (vec_len self.new.journal.events < vec_capacity self.new.journal.events) }
        ensures same { self.new.journal.events.items ≡ self.old.journal.events.items }
        ensures rest { (self.new.outlet ≡ self.old.outlet) × (self.new.unapplied ≡ self.old.unapplied) × (self.new.left ≡ self.old.left) }
    {
        self.journal.reserve()?;
        read_request(self.alloc, text)
    }

    /// The next message with what it asks, if there is one. `None` where nothing has come, and where the link is over or memory ran out.
    pub(crate) fn hear(&mut self) -> Option<(Listed<u8>, Asked)>
        requires usable { (L.meaning self.old.outlet.link).shut ≡ false }
        requires over { self.old.outlet.over ≡ None }
        requires room { HasRoom self.old }
        ensures none { IfNone result ((start : Meaning) (polls : List Poll) (deeds : List Deed) (made : List (List ℕ))
            → Held start (L.meaning self.old.outlet.link) self.old polls deeds [] made
            → NoRequest start (L.meaning self.new.outlet.link) self.new polls deeds made) }
        ensures some { IfSome result (λ heard. (start : Meaning) (polls : List Poll) (deeds : List Deed) (made : List (List ℕ))
            → Held start (L.meaning self.old.outlet.link) self.old polls deeds [] made
            → Held start (L.meaning self.new.outlet.link) self.new (polls ++ Some heard.0 ∷ []) deeds (heard.0 ∷ []) made) }
        ensures asked { IfSome result (λ heard. heard.1 ≡ asked heard.0) }
        ensures events { OnSome result (vec_len self.new.journal.events < vec_capacity self.new.journal.events) }
        ensures open { OnSome result (self.new.outlet.over ≡ None) }
        ensures usable { (L.meaning self.new.outlet.link).shut ≡ false }
        ensures room { HasRoom self.new }
        ensures left { self.new.left ≡ self.old.left }
    {
        match self.outlet.poll(self.alloc) {
            Some(text) => match self.read(text.items()) {
                Ok(asked) => Some((text, asked)),
                Err(NoMemory) => {
                    self.starve(text);
                    None
                }
            },
            None => None,
        }
    }

    /// Notes a request that was applied, and tells its reply.
    fn apply(&mut self, text: Listed<u8>, reply: &Reply)
        requires usable { (L.meaning self.old.outlet.link).shut ≡ false }
        requires events { vec_len self.old.journal.events < vec_capacity self.old.journal.events }
        requires room { self.old.unapplied.items ≡ [] }
        ensures keeps { (start : Meaning) (polls : List Poll) (deeds : List Deed) (made : List (List ℕ))
            → Held start (L.meaning self.old.outlet.link) self.old polls deeds (text ∷ []) made
            → Held start (L.meaning self.new.outlet.link) self.new polls (deeds ++ Asks text ∷ []) [] (made ++ texts_of (Replied reply.now ∷ [])) }
        ensures left { self.new.left ≡ self.old.left || is_bye reply.now.body }
        ensures over { Lasts self.old.outlet.over self.new.outlet.over }
        ensures usable { (L.meaning self.new.outlet.link).shut ≡ false }
        ensures room { self.new.unapplied ≡ self.old.unapplied }
    {
        self.journal.add_request(text);
        self.left = self.left || matches!(&reply.body, Body::Bye);
        self.outlet.tell(self.alloc, reply_text(self.alloc, reply));
    }

    /// Notes the answer to a request; where memory ran out for it, it was not applied.
    pub(crate) fn answer(&mut self, text: Listed<u8>, reply: Result<Reply, NoMemory>)
        requires usable { (L.meaning self.old.outlet.link).shut ≡ false }
        requires events { vec_len self.old.journal.events < vec_capacity self.old.journal.events }
        requires room { HasRoom self.old }
        requires open { self.old.outlet.over ≡ None }
        ensures ok { IfOk reply (λ reply. (start : Meaning) (polls : List Poll) (deeds : List Deed) (made : List (List ℕ))
            → Held start (L.meaning self.old.outlet.link) self.old polls deeds (text ∷ []) made
            → Held start (L.meaning self.new.outlet.link) self.new polls (deeds ++ Asks text ∷ []) [] (made ++ texts_of (Replied reply ∷ []))) }
        ensures left { IfOk reply (λ reply. self.new.left ≡ self.old.left || is_bye reply.body) }
        ensures err { OnErr reply ((start : Meaning) (polls : List Poll) (deeds : List Deed) (made : List (List ℕ))
            → Held start (L.meaning self.old.outlet.link) self.old polls deeds (text ∷ []) made
            → Held start (L.meaning self.new.outlet.link) self.new polls deeds [] made) }
        ensures open { OnOk reply (self.new.outlet.over ≢ Some Cause.Closed) }
        ensures starved { OnErr reply ((self.new.outlet.over ≡ Some Cause.NoMemory) × (self.new.left ≡ self.old.left)) }
        ensures usable { (L.meaning self.new.outlet.link).shut ≡ false }
        ensures room { HasRoom self.new }
    {
        match reply {
            Ok(reply) => self.apply(text, &reply),
            Err(NoMemory) => self.starve(text),
        }
    }

    /// Whether a turn is to be made, if the session runs: there is room for it in the journal.
    pub(crate) fn is_ready(&mut self) -> bool
        requires usable { (L.meaning self.old.outlet.link).shut ≡ false }
        ensures keeps { (start : Meaning) (polls : List Poll) (deeds : List Deed) (made : List (List ℕ))
            → Held start (L.meaning self.old.outlet.link) self.old polls deeds [] made
            → Held start (L.meaning self.new.outlet.link) self.new polls deeds [] made }
        ensures yes { IsTrue result → (self.old.left ≡ false) × (self.old.outlet.over ≡ None) × (self.new.outlet.over ≡ None)
            × (vec_len self.new.journal.events < vec_capacity self.new.journal.events) }
        ensures no { IsFalse result → ((self.old.left || is_some self.old.outlet.over) ≡ true) × (self.new.outlet.over ≡ self.old.outlet.over)
            ⊎ (self.new.outlet.over ≡ Some Cause.NoMemory) }
        ensures usable { (L.meaning self.new.outlet.link).shut ≡ false }
        ensures room { HasRoom self.old → HasRoom self.new }
        ensures left { self.new.left ≡ self.old.left }
    {
        if self.is_over() {
            return false;
        }
        if self.journal.reserve().is_err() {
            self.outlet.lose();
            return false;
        }
        true
    }

    /// Notes a turn that was made, and tells what is told of it.
    pub(crate) fn turned(&mut self, notice: Result<Option<Notice>, NoMemory>)
        requires usable { (L.meaning self.old.outlet.link).shut ≡ false }
        requires events { vec_len self.old.journal.events < vec_capacity self.old.journal.events }
        ensures keeps { (start : Meaning) (polls : List Poll) (deeds : List Deed) (made : List (List ℕ)) (lines : List Line)
            → IfOk notice (λ notice. told_lines notice ≡ lines) → Held start (L.meaning self.old.outlet.link) self.old polls deeds [] made
            → Held start (L.meaning self.new.outlet.link) self.new polls (deeds ++ Goes ∷ []) [] (made ++ texts_of lines) }
        ensures usable { (L.meaning self.new.outlet.link).shut ≡ false }
        ensures room { HasRoom self.old → HasRoom self.new }
        ensures left { self.new.left ≡ self.old.left }
    {
        self.journal.add_turn();
        note(&mut self.outlet, self.alloc, notice);
    }

    /// How the connection ended.
    fn end(&self) -> End
        ensures { result ≡ end_of self.now.left self.now.outlet.over }
    {
        match self.outlet.over {
            Some(Cause::NoMemory) => End::NoMemory,
            Some(_) | None if self.left => End::Bye,
            Some(Cause::Closed) => End::Closed,
            Some(Cause::Failed) => End::Failed,
            None => End::Bye,
        }
    }

    /// What the connection leaves.
    pub(crate) fn into_served(self) -> Served<L>
        ensures link { L.meaning result.link ≡ L.meaning self.outlet.link }
        ensures journal { result.journal.items ≡ self.journal.events.items }
        ensures unapplied { result.unapplied.items ≡ self.unapplied.items }
        ensures sent { result.sent.items ≡ self.outlet.sent.items }
        ensures unsent { result.unsent.items ≡ self.outlet.unsent.items }
        ensures end { result.end ≡ end_of self.left self.outlet.over }
    {
        let end = self.end();
        let Desk {
            outlet,
            journal,
            unapplied,
            left: _,
            alloc: _,
        } = self;
        let Outlet {
            link,
            sent,
            unsent,
            over: _,
        } = outlet;
        let Journal { events } = journal;
        Served {
            link,
            journal: events,
            unapplied,
            sent,
            unsent,
            end,
        }
    }
}
