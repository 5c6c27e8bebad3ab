//! A link with what was sent over it: it decides what becomes of each line, by whether the link is still in use.

use crate::cause::Cause;
use link_edge::{Link, LinkEnd, Polled};
use std::alloc::Global;
use text_core::{Listed, NoMemory};

/// A link, the lines that were sent over it, and those that were not: once it is no longer used, all further lines are kept, and once
/// memory ran out, they are lost.
#[derive(Drop)]
pub struct Outlet<L> {
    pub link: L,
    pub sent: Vec<Listed<u8>>,
    pub unsent: Vec<Listed<u8>>,
    /// Why the link is no longer used, once it is not.
    pub over: Option<Cause>,
}

impl<L: Link> Outlet<L> {
    ghost use Rattle.std.specs.Prelude.{◌≡◌, ◌≢◌, ◌++◌, [], ◌∷◌, List, ℕ, None, Some, false, IfOk, IfSome, IfNone, OnSome};
    ghost use Rattle.io_edge.specs.Taken.{Appends};
    ghost use Rattle.link_edge.specs.Links.{Meaning};
    ghost use Rattle.link_pump.specs.Outlets.{Delivered, Lasts, opened, polled_without};

    /// Memory ran out, and so these lines are lost, however many they are.
    pub fn lose(&mut self)
        ensures keeps { (start : Meaning) (made more : List (List ℕ)) → Delivered start (L.meaning self.old.link) self.old made
            → Delivered start (L.meaning self.new.link) self.new (made ++ more) }
        ensures any { (start now : Meaning) (made more : List (List ℕ)) → Delivered start now self.old made → Delivered start now self.new (made ++ more) }
        ensures link { L.meaning self.new.link ≡ L.meaning self.old.link }
        ensures over { self.new.over ≡ Some Cause.NoMemory }
    {
        self.over = Some(Cause::NoMemory);
    }

    /// Keeps a line that is not sent.
    fn keep(&mut self, text: Listed<u8>)
        requires { self.old.over ≢ None }
        ensures keeps { (start : Meaning) (made : List (List ℕ)) → Delivered start (L.meaning self.old.link) self.old made
            → Delivered start (L.meaning self.new.link) self.new (made ++ text ∷ []) }
        ensures any { (start now : Meaning) (made : List (List ℕ)) → Delivered start now self.old made → Delivered start now self.new (made ++ text ∷ []) }
        ensures link { L.meaning self.new.link ≡ L.meaning self.old.link }
        ensures over { Lasts self.old.over self.new.over }
    {
        if self.over == Some(Cause::NoMemory) {
            self.lose();
            return;
        }
        if self.unsent.push(text).is_err() {
            self.lose();
        }
    }

    /// Sends a line over a link that is in use.
    fn send(&mut self, alloc: Global, text: Listed<u8>)
        requires usable { (L.meaning self.old.link).shut ≡ false }
        requires over { self.old.over ≡ None }
        ensures keeps { (start : Meaning) (made : List (List ℕ)) → Delivered start (L.meaning self.old.link) self.old made
            → Delivered start (L.meaning self.new.link) self.new (made ++ text ∷ []) }
        ensures polls { (L.meaning self.new.link).polls ≡ (L.meaning self.old.link).polls }
        ensures received { (L.meaning self.new.link).received ≡ (L.meaning self.old.link).received }
        ensures shut { (L.meaning self.new.link).shut ≡ false }
        ensures over { self.new.over ≢ Some Cause.Closed }
    {
        if self.sent.try_reserve(1).is_err() {
            self.lose();
            return;
        }
        match self.link.send(alloc, text.items()) {
            Ok(()) => {
                let _ = self.sent.push(text);
            }
            Err(LinkEnd::Failed) => {
                self.over = Some(Cause::Failed);
                self.keep(text);
            }
            Err(LinkEnd::NoMemory) => self.lose(),
        }
    }

    /// Sends a line, or keeps it.
    pub fn deliver(&mut self, alloc: Global, text: Listed<u8>)
        requires usable { (L.meaning self.old.link).shut ≡ false }
        ensures keeps { (start : Meaning) (made : List (List ℕ)) → Delivered start (L.meaning self.old.link) self.old made
            → Delivered start (L.meaning self.new.link) self.new (made ++ text ∷ []) }
        ensures polls { (L.meaning self.new.link).polls ≡ (L.meaning self.old.link).polls }
        ensures received { (L.meaning self.new.link).received ≡ (L.meaning self.old.link).received }
        ensures shut { (L.meaning self.new.link).shut ≡ false }
        ensures over { Lasts self.old.over self.new.over }
    {
        match self.over {
            None => self.send(alloc, text),
            Some(_) => self.keep(text),
        }
    }

    /// Delivers lines, in order.
    pub fn deliver_all(&mut self, alloc: Global, texts: Vec<Listed<u8>>)
        requires { (L.meaning self.old.link).shut ≡ false }
        ensures keeps { (start : Meaning) (made : List (List ℕ)) → Delivered start (L.meaning self.old.link) self.old made
            → Delivered start (L.meaning self.new.link) self.new (made ++ texts.items) }
        ensures received { (L.meaning self.new.link).received ≡ (L.meaning self.old.link).received }
        ensures over { Lasts self.old.over self.new.over }
        ensures shut { (L.meaning self.new.link).shut ≡ false }
    {
        for text in texts {
            self.deliver(alloc, text);
        }
    }

    /// Keeps a line of a link that is shut, where the link is over; else it is lost.
    fn keep_or_lose(&mut self, text: Listed<u8>)
        ensures any { (start now : Meaning) (made : List (List ℕ)) → Delivered start now self.old made → Delivered start now self.new (made ++ text ∷ []) }
        ensures link { L.meaning self.new.link ≡ L.meaning self.old.link }
        ensures over { Lasts self.old.over self.new.over }
    {
        if self.over.is_none() {
            self.lose();
            return;
        }
        self.keep(text);
    }

    /// Keeps lines of a link that is shut, in order, where the link is over; else they are lost.
    fn keep_all(&mut self, texts: Vec<Listed<u8>>)
        ensures any { (start now : Meaning) (made : List (List ℕ)) → Delivered start now self.old made → Delivered start now self.new (made ++ texts.items) }
        ensures link { L.meaning self.new.link ≡ L.meaning self.old.link }
        ensures over { Lasts self.old.over self.new.over }
    {
        for text in texts {
            self.keep_or_lose(text);
        }
    }

    /// Delivers the last lines, in order. Where the link is shut, none is sent.
    pub fn deliver_last(&mut self, alloc: Global, texts: Vec<Listed<u8>>)
        ensures keeps { (start : Meaning) (made : List (List ℕ)) → Delivered start (opened (L.meaning self.old.link)) self.old made
            → Delivered start (opened (L.meaning self.new.link)) self.new (made ++ texts.items) }
        ensures received { (L.meaning self.new.link).received ≡ (L.meaning self.old.link).received }
        ensures over { Lasts self.old.over self.new.over }
        ensures shut { (L.meaning self.new.link).shut ≡ (L.meaning self.old.link).shut }
    {
        if self.link.shut() {
            self.keep_all(texts);
        } else {
            self.deliver_all(alloc, texts);
        }
    }

    /// Delivers a line, if there was memory for its text.
    pub fn tell(&mut self, alloc: Global, text: Result<Vec<u8>, NoMemory>)
        requires usable { (L.meaning self.old.link).shut ≡ false }
        ensures keeps { (start : Meaning) (made : List (List ℕ)) (line : List ℕ) → IfOk text (λ text. text.items ≡ line)
            → Delivered start (L.meaning self.old.link) self.old made → Delivered start (L.meaning self.new.link) self.new (made ++ line ∷ []) }
        ensures polls { (L.meaning self.new.link).polls ≡ (L.meaning self.old.link).polls }
        ensures received { (L.meaning self.new.link).received ≡ (L.meaning self.old.link).received }
        ensures shut { (L.meaning self.new.link).shut ≡ false }
        ensures over { Lasts self.old.over self.new.over }
    {
        match text {
            Ok(text) => self.deliver(alloc, Listed::new(text)),
            Err(NoMemory) => self.lose(),
        }
    }

    /// The next message of a link that is in use, if one has come.
    pub fn poll(&mut self, alloc: Global) -> Option<Listed<u8>>
        requires usable { (L.meaning self.old.link).shut ≡ false }
        requires over { self.old.over ≡ None }
        ensures keeps { (start : Meaning) (made : List (List ℕ)) → Delivered start (L.meaning self.old.link) self.old made
            → Delivered start (L.meaning self.new.link) self.new made }
        ensures some { IfSome result (λ text. Appends (L.meaning self.old.link).polls (L.meaning self.new.link).polls (Some text ∷ [])) }
        ensures heard { IfSome result (λ text. Appends (L.meaning self.old.link).received (L.meaning self.new.link).received (text ∷ [])) }
        ensures open { OnSome result (self.new.over ≡ None) }
        ensures none { IfNone result (Appends (L.meaning self.old.link).polls (L.meaning self.new.link).polls (polled_without self.new.over)) }
        ensures silent { IfNone result (Appends (L.meaning self.old.link).received (L.meaning self.new.link).received []) }
        ensures shut { (L.meaning self.new.link).shut ≡ false }
    {
        match self.link.poll(alloc) {
            Polled::Message(text) => Some(text),
            Polled::Nothing => None,
            Polled::Closed => {
                self.over = Some(Cause::Closed);
                None
            }
            Polled::Failed => {
                self.over = Some(Cause::Failed);
                None
            }
            Polled::NoMemory => {
                self.over = Some(Cause::NoMemory);
                None
            }
        }
    }
}
