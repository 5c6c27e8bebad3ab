//! The link's side of a connection in two threads: it sends the lines that it pops, and pushes the messages that it reads.

ghost use Rattle.std.specs.Prelude.{◌≡◌, [], false, true};
ghost use Rattle.rtrb.specs.Ring.{sent, received, SameProducer, SameConsumer};
ghost use Rattle.link_pump.specs.Rings.{finishes};

use crate::cause::Cause;
use crate::outlet::Outlet;
use crate::rest::Rest;
use crate::rings::{FromLink, ToLink};
use link_edge::Link;
use rtrb::{Consumer, Producer, PushError};
use std::alloc::Global;
use std::sync::Wait;
use text_core::Listed;

/// What a step came to.
#[derive(Clone, Copy, PartialEq, Eq)]
enum Stepped {
    /// A last mark was popped: the session is over, or the client has left.
    Over,
    /// Something was popped or read.
    Worked,
    /// There was nothing to do.
    Idle,
}

/// A link with what was sent over it, its ends of the two rings, the message that was read and not pushed yet, why the mark that the
/// link is over says that it is, once it was pushed, whether the session has begun, and whether the client has left.
#[derive(Drop)]
pub struct Pump<L> {
    pub outlet: Outlet<L>,
    pub messages: Producer<FromLink>,
    pub lines: Consumer<ToLink>,
    pub held: Option<Listed<u8>>,
    pub marked: Option<Cause>,
    pub begun: bool,
    pub left: bool,
    pub alloc: Global,
}

impl<L: Link> Pump<L> {
    ghost use Rattle.std.specs.Prelude.{◌≡◌, [], true, false};
    ghost use Rattle.link_edge.specs.Links.{Meaning};
    ghost use Rattle.rtrb.specs.Ring.{sent, received, SameProducer, SameConsumer};
    ghost use Rattle.link_pump.specs.Rings.{finishes};
    ghost use Rattle.link_pump.specs.Pumps.{Pumped};

    /// A link of which nothing was read. Takes no memory.
    fn new(alloc: Global, link: L, messages: Producer<FromLink>, lines: Consumer<ToLink>) -> Pump<L>
        requires { (sent messages ≡ []) × (received lines ≡ []) }
        ensures began { Pumped (L.meaning link) (L.meaning result.outlet.link) result }
        ensures link { L.meaning result.outlet.link ≡ L.meaning link }
        ensures messages { result.messages ≡ messages }
        ensures lines { result.lines ≡ lines }
    {
        Pump {
            outlet: Outlet {
                link,
                sent: Vec::new(alloc),
                unsent: Vec::new(alloc),
                over: None,
            },
            messages,
            lines,
            held: None,
            marked: None,
            begun: false,
            left: false,
            alloc,
        }
    }

    /// Pops one item, if there is one, and deals with it: a line is sent, or kept once the link is over.
    fn take_line(&mut self) -> Stepped
        requires { (L.meaning self.old.outlet.link).shut ≡ false }
        ensures keeps { (start : Meaning) → Pumped start (L.meaning self.old.outlet.link) self.old → Pumped start (L.meaning self.new.outlet.link) self.new }
        ensures over { result ≡ Stepped.Over → finishes (received self.new.lines) ≡ true }
        ensures usable { (L.meaning self.new.outlet.link).shut ≡ false }
        ensures messages { self.new.messages ≡ self.old.messages }
        ensures lines { SameConsumer self.old.lines self.new.lines }
    {
        match self.lines.pop() {
            Ok(ToLink::Begun) => {
                self.begun = true;
                Stepped::Worked
            }
            Ok(ToLink::Line(text)) => {
                self.outlet.deliver(self.alloc, text);
                Stepped::Worked
            }
            Ok(ToLink::SessionOver) => Stepped::Over,
            Ok(ToLink::ClientOver) => {
                self.left = true;
                Stepped::Over
            }
            Err(_) => Stepped::Idle,
        }
    }

    /// Pushes the message that is held, if there is one, and room for it.
    fn push_held(&mut self)
        ensures keeps { (start : Meaning) → Pumped start (L.meaning self.old.outlet.link) self.old → Pumped start (L.meaning self.new.outlet.link) self.new }
        ensures link { self.new.outlet ≡ self.old.outlet }
        ensures messages { SameProducer self.old.messages self.new.messages }
        ensures lines { self.new.lines ≡ self.old.lines }
    {
        if let Some(text) = self.held.take() {
            match self.messages.push(FromLink::Message(text)) {
                Ok(()) => {}
                Err(PushError::Full(FromLink::Message(text))) => self.held = Some(text),
                Err(PushError::Full(FromLink::LinkOver(_))) => unreachable!(),
            }
        }
    }

    /// Pushes the mark that the link is over, once it is, if no message is held, and if there is room for it.
    fn push_mark(&mut self)
        ensures keeps { (start : Meaning) → Pumped start (L.meaning self.old.outlet.link) self.old → Pumped start (L.meaning self.new.outlet.link) self.new }
        ensures link { self.new.outlet ≡ self.old.outlet }
        ensures messages { SameProducer self.old.messages self.new.messages }
        ensures lines { self.new.lines ≡ self.old.lines }
    {
        if self.marked.is_some() || self.held.is_some() {
            return;
        }
        if let Some(cause) = self.outlet.over {
            if self.messages.push(FromLink::LinkOver(cause)).is_ok() {
                self.marked = Some(cause);
            }
        }
    }

    /// Polls the link once: after the session has begun, while the link is in use, and while no message is held. Says whether a message
    /// was read.
    fn poll(&mut self) -> bool
        requires { (L.meaning self.old.outlet.link).shut ≡ false }
        ensures keeps { (start : Meaning) → Pumped start (L.meaning self.old.outlet.link) self.old → Pumped start (L.meaning self.new.outlet.link) self.new }
        ensures usable { (L.meaning self.new.outlet.link).shut ≡ false }
        ensures messages { self.new.messages ≡ self.old.messages }
        ensures lines { self.new.lines ≡ self.old.lines }
    {
        if !self.begun || self.outlet.over.is_some() || self.held.is_some() {
            return false;
        }
        self.held = self.outlet.poll(self.alloc);
        self.held.is_some()
    }

    /// One step: at most one item, one push and one poll. Where the session is over, or the client has left, nothing more is done.
    fn step(&mut self) -> Stepped
        requires { (L.meaning self.old.outlet.link).shut ≡ false }
        ensures keeps { (start : Meaning) → Pumped start (L.meaning self.old.outlet.link) self.old → Pumped start (L.meaning self.new.outlet.link) self.new }
        ensures over { result ≡ Stepped.Over → finishes (received self.new.lines) ≡ true }
        ensures usable { (L.meaning self.new.outlet.link).shut ≡ false }
        ensures messages { SameProducer self.old.messages self.new.messages }
        ensures lines { SameConsumer self.old.lines self.new.lines }
    {
        let taken = self.take_line();
        if taken == Stepped::Over {
            return taken;
        }
        self.push_held();
        self.push_mark();
        if self.poll() {
            return Stepped::Worked;
        }
        taken
    }

    /// Serves the link, until the session is over, or the client has left. After steps in which there was nothing to do, it rests.
    ///
    /// Where the session goes on, it waits, and may never return.
    pub fn serve<R: Wait>(
        rt: &R,
        alloc: Global,
        link: L,
        messages: Producer<FromLink>,
        lines: Consumer<ToLink>,
    ) -> Pump<L>
        requires usable { (L.meaning link).shut ≡ false }
        requires fresh { (sent messages ≡ []) × (received lines ≡ []) }
        ensures served { Pumped (L.meaning link) (L.meaning result.outlet.link) result }
        ensures over { finishes (received result.lines) ≡ true }
        ensures usable { (L.meaning result.outlet.link).shut ≡ false }
        ensures messages { SameProducer messages result.messages }
        ensures lines { SameConsumer lines result.lines }
    {
        let mut side = Pump::new(alloc, link, messages, lines);
        let mut rest = Rest::new();
        for _ in rt.forever() {
            match side.step() {
                Stepped::Over => return side,
                Stepped::Worked => rest.end(),
                Stepped::Idle => rest.step(rt),
            }
        }
        unreachable!()
    }
}
