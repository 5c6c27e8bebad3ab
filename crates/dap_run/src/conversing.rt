//! One message after another: what is first in the bytes that are held decides whether it is answered, more is waited for, or the
//! conversation is over.

ghost use Rattle.std.specs.Prelude.{◌≡◌, ◌≤◌, ℕ, List, Option, None, Some, false, IfOk, OnOk, OnErr, IsErrOf};
ghost use Rattle.std.specs.Io.KnownBytes.{Keeps};
ghost use Rattle.world_core.specs.World.{World};
ghost use Rattle.machine_core.specs.Reading.{Reader, IsReader};
ghost use Rattle.io_edge.specs.Faults.{Rose};
ghost use Rattle.io_edge.specs.Taken.{Grows};
ghost use Rattle.dap_link.specs.Frames.{IsAwaited, IsMessage};
ghost use Rattle.dap_link.specs.State.{world_in};
ghost use Rattle.dap_link.specs.Conversing.{conversation_of};
ghost use Rattle.dap_link.specs.Conversation.{Conversation};
ghost use Rattle.dap_run.specs.Talks.{Answers, Hears, HearsSome, Turns, Stands, TalksTo, WritesFront};

use crate::ends::TalkEnd;
use crate::write::put_all;
use dap_link::{Adapter, Framed, Framer};
use io_edge::{Sink, SinkEnd, Source, SourceEnd};
use std::alloc::Global;
use std::sync::Wait;
use trace_core::Trace;

/// The debugger's side of a conversation, what is held of the input, and whether that is at its end.
#[derive(Drop)]
pub(crate) struct Speaker<T: Trace> {
    adapter: Adapter<T>,
    framer: Framer,
    ended: bool,
}

impl<T: Trace> Speaker<T> {
    /// Answers a message, and writes what is said. Says whether it was the last.
    fn answer<S: Sink>(&mut self, body: &[u8], out: &mut S) -> Result<bool, SinkEnd>
        ensures table { self.new.adapter.session.table ≡ self.old.adapter.session.table }
        ensures samples { T.samples self.new.adapter.session.trace ≡ T.samples self.old.adapter.session.trace }
        ensures names { self.new.adapter.names ≡ self.old.adapter.names }
        ensures framer { self.new.framer ≡ self.old.framer }
        ensures ended { self.new.ended ≡ self.old.ended }
        ensures ok { IfOk result (λ last. (read : Reader) → IsReader read
            → Answers read (world_in self.old.adapter.session) self.old.adapter.names (conversation_of self.old.adapter) body.now
            (conversation_of self.new.adapter) last (S.taken out.old) (S.taken out.new)) }
        ensures front { OnErr result ((read : Reader) → IsReader read
            → WritesFront read (world_in self.old.adapter.session) self.old.adapter.names (conversation_of self.old.adapter) body.now
            (S.taken out.old) (S.taken out.new)) }
        ensures later { S.fault_count out.old ≤ S.fault_count out.new }
        ensures failed { IsErrOf result SinkEnd.Failed → Rose (S.fault_count out.old) (S.fault_count out.new) }
    {
        let said = self.adapter.message(body)?;
        put_all(&said.lines, out)?;
        Ok(said.ended)
    }

    /// Waits for the next piece of the input.
    fn hear<I: Source>(&mut self, alloc: Global, input: &mut I) -> Result<(), SourceEnd>
        requires open { self.old.ended ≡ false }
        ensures adapter { self.new.adapter ≡ self.old.adapter }
        ensures ok { OnOk result (Hears (I.left input.old) (I.left input.new) self.old.framer self.new.framer self.new.ended) }
        ensures some { OnErr result (HearsSome (I.left input.old) (I.left input.new)) }
        ensures unread { IsErrOf result SourceEnd.Failed → Keeps (I.left input.old) (I.left input.new) }
        ensures later { I.fault_count input.old ≤ I.fault_count input.new }
        ensures failed { IsErrOf result SourceEnd.Failed → Rose (I.fault_count input.old) (I.fault_count input.new) }
    {
        let piece = input.more(alloc)?;
        if piece.is_empty() {
            self.ended = true;
        }
        self.framer.feed(&piece)?;
        Ok(())
    }

    /// Answers a message that was taken off what is held, and goes on unless it was the last.
    fn take<S: Sink>(&mut self, body: &[u8], out: &mut S) -> Option<TalkEnd>
        ensures table { self.new.adapter.session.table ≡ self.old.adapter.session.table }
        ensures samples { T.samples self.new.adapter.session.trace ≡ T.samples self.old.adapter.session.trace }
        ensures names { self.new.adapter.names ≡ self.old.adapter.names }
        ensures framer { self.new.framer ≡ self.old.framer }
        ensures turns { (read : Reader) → IsReader read → (first : Conversation) (left0 left old : Option (List ℕ)) (before : List ℕ)
            → Stands read (world_in self.old.adapter.session) self.old.adapter.names first (conversation_of self.old.adapter) left0 left before self.old.ended
            old (S.taken out.old)
            → IsMessage before body.now self.old.framer.held
            → Turns result read (world_in self.old.adapter.session) self.old.adapter.names first (conversation_of self.new.adapter) left0 left
            self.new.framer.held self.new.ended old (S.taken out.new) }
        ensures later { S.fault_count out.old ≤ S.fault_count out.new }
        ensures unread { result ≡ Some TalkEnd.NotRead → ⊥ }
        ensures failed { result ≡ Some TalkEnd.NotTaken → Rose (S.fault_count out.old) (S.fault_count out.new) }
    {
        match self.answer(body, out) {
            Ok(true) => Some(TalkEnd::Bye),
            Ok(false) => None,
            Err(SinkEnd::Failed) => Some(TalkEnd::NotTaken),
            Err(SinkEnd::NoMemory) => Some(TalkEnd::NoMemory),
        }
    }

    /// Waits for more where the input is not at its end.
    fn go_on<I: Source>(&mut self, alloc: Global, input: &mut I) -> Option<TalkEnd>
        ensures adapter { self.new.adapter ≡ self.old.adapter }
        ensures sound { self.old.framer.fault ≡ None → result ≡ None → self.new.framer.fault ≡ None }
        ensures turns { (read : Reader) (w : World) (names : List (List ℕ)) (first now : Conversation) (left0 old new : Option (List ℕ))
            → Stands read w names first now left0 (I.left input.old) self.old.framer.held self.old.ended old new
            → IsAwaited self.old.framer.held self.old.ended
            → Turns result read w names first now left0 (I.left input.new) self.new.framer.held self.new.ended old new }
        ensures later { I.fault_count input.old ≤ I.fault_count input.new }
        ensures untaken { result ≡ Some TalkEnd.NotTaken → ⊥ }
        ensures failed { result ≡ Some TalkEnd.NotRead → Rose (I.fault_count input.old) (I.fault_count input.new) }
    {
        if self.ended {
            return Some(TalkEnd::AtEnd);
        }
        match self.hear(alloc, input) {
            Ok(()) => None,
            Err(SourceEnd::Failed) => Some(TalkEnd::NotRead),
            Err(SourceEnd::NoMemory) => Some(TalkEnd::NoMemory),
        }
    }

    /// Does what the bytes that are held ask for.
    fn turn<I: Source, S: Sink>(
        &mut self,
        alloc: Global,
        input: &mut I,
        out: &mut S,
    ) -> Option<TalkEnd>
        requires sound { self.old.framer.fault ≡ None }
        ensures table { self.new.adapter.session.table ≡ self.old.adapter.session.table }
        ensures samples { T.samples self.new.adapter.session.trace ≡ T.samples self.old.adapter.session.trace }
        ensures names { self.new.adapter.names ≡ self.old.adapter.names }
        ensures sound { result ≡ None → self.new.framer.fault ≡ None }
        ensures turns { (read : Reader) → IsReader read → (first : Conversation) (left0 old : Option (List ℕ))
            → Stands read (world_in self.old.adapter.session) self.old.adapter.names first (conversation_of self.old.adapter) left0 (I.left input.old)
            self.old.framer.held self.old.ended old (S.taken out.old)
            → Turns result read (world_in self.old.adapter.session) self.old.adapter.names first (conversation_of self.new.adapter) left0
            (I.left input.new) self.new.framer.held self.new.ended old (S.taken out.new) }
        ensures input_later { I.fault_count input.old ≤ I.fault_count input.new }
        ensures output_later { S.fault_count out.old ≤ S.fault_count out.new }
        ensures unread { result ≡ Some TalkEnd.NotRead → Rose (I.fault_count input.old) (I.fault_count input.new) }
        ensures untaken { result ≡ Some TalkEnd.NotTaken → Rose (S.fault_count out.old) (S.fault_count out.new) }
    {
        match self.framer.next(self.ended) {
            Ok(Framed::Message(body)) => self.take(&body, out),
            Ok(Framed::More) => self.go_on(alloc, input),
            Ok(Framed::Fault(fault)) => Some(TalkEnd::Fault(fault)),
            Err(_) => Some(TalkEnd::NoMemory),
        }
    }
}

/// Answers the messages of an input over an adapter, one after another, each before more of the input is waited for, and writes what is said.
/// Ends as `TalkEnd` tells.
///
/// What was written is the text of the conversation that the messages of what was taken of the input lead to, whatever the pieces in which they
/// came; where the output failed or memory ran out, a front of it. Where no more comes of the input, it waits, and may never return.
pub fn talk<R: Wait, T: Trace + Drop, I: Source, S: Sink>(
    rt: &R,
    alloc: Global,
    adapter: Adapter<T>,
    input: &mut I,
    out: &mut S,
) -> TalkEnd
    ensures text { (read : Reader) → IsReader read
        → TalksTo result read (world_in adapter.session) adapter.names (conversation_of adapter) (I.left input.old) (I.left input.new)
        (S.taken out.old) (S.taken out.new) }
    ensures kept { Grows (S.taken out.old) (S.taken out.new) }
    ensures input_later { I.fault_count input.old ≤ I.fault_count input.new }
    ensures output_later { S.fault_count out.old ≤ S.fault_count out.new }
    ensures unread { result ≡ TalkEnd.NotRead → Rose (I.fault_count input.old) (I.fault_count input.new) }
    ensures untaken { result ≡ TalkEnd.NotTaken → Rose (S.fault_count out.old) (S.fault_count out.new) }
{
    let mut speaker = Speaker {
        adapter,
        framer: Framer::new(alloc),
        ended: false,
    };
    for _ in rt.forever() {
        if let Some(end) = speaker.turn(alloc, input, out) {
            return end;
        }
    }
    unreachable!()
}
