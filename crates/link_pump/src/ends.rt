//! The session's ends of the two rings, as a link: so the session's side is served in lock step with them.
//!
//! A message is popped, a line is pushed, and the mark that the link is over is a link that is closed or broken, or that found no memory.

ghost use Rattle.std.specs.Prelude.{◌≡◌, true};
ghost use Rattle.rtrb.specs.Ring.{sent, received, SameProducer};
ghost use Rattle.link_pump.specs.Rings.{cause_in, lines_in, finishes, marked_last};
ghost use Rattle.link_pump.specs.Ends.{over_as};

use crate::cause::Cause;
use crate::rings::{FromLink, ToLink, push_waiting};
use link_edge::{Link, LinkEnd, Polled};
use rtrb::{Consumer, Producer};
use std::alloc::Global;
use std::sync::Wait;
use std::thread;
use text_core::Listed;

/// After so many polls that found nothing, other threads are let run. A session that runs polls once each turn.
const REST: u64 = 64;

/// The consumer of the messages and the producer of the lines. Once the mark that the link is over was popped, nothing more is; and once the
/// mark was pushed that the client has left, nothing more is.
#[derive(Drop)]
pub struct Ends<'r, R> {
    rt: &'r R,
    messages: Consumer<FromLink>,
    lines: Producer<ToLink>,
    over: Option<Cause>,
    idles: u64,
    shut: bool,
    parted: bool,
    pub ghost marked: { cause_in (received messages) ≡ over },
    pub ghost going: { finishes (sent lines) ≡ parted },
    pub ghost once: { marked_last (sent lines) ≡ true },
}

/// What a poll answers where the link is over.
fn polled_over(cause: Cause) -> Polled
    ensures { result ≡ over_as cause }
{
    match cause {
        Cause::Closed => Polled::Closed,
        Cause::Failed => Polled::Failed,
        Cause::NoMemory => Polled::NoMemory,
    }
}

/// Pushes the mark that the session is over, unless there is one that the client has left.
fn finish_lines<R: Wait>(rt: &R, lines: &mut Producer<ToLink>, parted: bool)
    requires { (finishes (sent lines.old) ≡ parted) × (marked_last (sent lines.old) ≡ true) }
    ensures lines { SameProducer lines.old lines.new × (lines_in (sent lines.new) ≡ lines_in (sent lines.old)) }
    ensures last { (finishes (sent lines.new) ≡ true) × (marked_last (sent lines.new) ≡ true) }
{
    if !parted {
        push_waiting(rt, lines, ToLink::SessionOver);
    }
}

impl<'r, R: Wait> Ends<'r, R> {
    ghost use Rattle.std.specs.Prelude.{◌≡◌, [], ◌∷◌, None, true, false};
    ghost use Rattle.rtrb.specs.Ring.{sent, received, SameConsumer, SameProducer};
    ghost use Rattle.link_pump.specs.declared.rings.ToLink.TheVariants.{Begun};
    ghost use Rattle.link_pump.specs.Rings.{lines_in, finishes, marked_last};
    ghost use Rattle.link_pump.specs.Ends.{meaning_of};

    /// Begins, by the mark that the session has begun.
    #[tactic(auto, unfolding(crate::specs::Rings::cause_in, crate::specs::Rings::finishes, crate::specs::Rings::marked_last))]
    pub fn begin(rt: &'r R, messages: Consumer<FromLink>, lines: Producer<ToLink>) -> Ends<'r, R>
        requires { (received messages ≡ []) × (sent lines ≡ []) }
        ensures messages { result.messages ≡ messages }
        ensures lines { SameProducer lines result.lines × (sent result.lines ≡ Begun ∷ []) }
        ensures over { result.over ≡ None }
        ensures shut { result.shut ≡ false }
    {
        let mut lines = lines;
        push_waiting(rt, &mut lines, ToLink::Begun);
        Ends {
            rt,
            messages,
            lines,
            over: None,
            idles: 0,
            shut: false,
            parted: false,
        }
    }

    /// The client has left: the link's side is told so behind the lines, once.
    pub fn part(&mut self)
        ensures { meaning_of self.new.messages self.new.lines self.new.over self.new.idles self.new.shut
            ≡ meaning_of self.old.messages self.old.lines self.old.over self.old.idles self.old.shut }
    {
        if !self.parted {
            push_waiting(self.rt, &mut self.lines, ToLink::ClientOver);
            self.parted = true;
        }
    }

    /// Ends, by the mark that the session is over, unless the client has left.
    pub fn finish(self) -> (Consumer<FromLink>, Producer<ToLink>)
        ensures messages { result.0 ≡ self.entry.messages }
        ensures lines { SameProducer self.entry.lines result.1 × (lines_in (sent result.1) ≡ lines_in (sent self.entry.lines)) }
        ensures last { (finishes (sent result.1) ≡ true) × (marked_last (sent result.1) ≡ true) }
    {
        let Ends {
            rt,
            messages,
            mut lines,
            over: _,
            idles: _,
            shut: _,
            parted,
        } = self;
        finish_lines(rt, &mut lines, parted);
        (messages, lines)
    }
}

impl<'r, R: Wait + Sync> Link for Ends<'r, R> {
    ghost use Rattle.link_pump.specs.Ends.{meaning_of};

    ghost meaning = { λ e. meaning_of e.messages e.lines e.over e.idles e.shut };

    fn faults(&self) -> u64 {
        match self.over {
            Some(Cause::Failed) => 1,
            Some(Cause::Closed) | Some(Cause::NoMemory) | None => 0,
        }
    }

    fn idles(&self) -> u64 {
        self.idles
    }

    fn ends(&self) -> u64 {
        match self.over {
            Some(Cause::Closed) => 1,
            Some(Cause::Failed) | Some(Cause::NoMemory) | None => 0,
        }
    }

    fn shut(&self) -> bool {
        self.shut
    }

    fn poll(&mut self, _alloc: Global) -> Polled {
        if self.over.is_some() {
            self.idles = self.idles.saturating_add(1);
            return Polled::Nothing;
        }
        match self.messages.pop() {
            Ok(FromLink::Message(text)) => Polled::Message(text),
            Ok(FromLink::LinkOver(cause)) => {
                self.over = Some(cause);
                polled_over(cause)
            }
            Err(_) => {
                self.idles = self.idles.saturating_add(1);
                if self.idles % REST == 0 {
                    thread::yield_now();
                }
                Polled::Nothing
            }
        }
    }

    fn send(&mut self, alloc: Global, text: &[u8]) -> Result<(), LinkEnd> {
        if self.parted {
            return Err(LinkEnd::NoMemory);
        }
        match text.to_vec(alloc) {
            Ok(copy) => {
                push_waiting(self.rt, &mut self.lines, ToLink::Line(Listed::new(copy)));
                Ok(())
            }
            Err(_) => Err(LinkEnd::NoMemory),
        }
    }

    fn close(&mut self) {
        self.shut = true;
    }
}
