//! A link in memory: its polls go by a script, and it keeps what was sent.
//!
//! It is told which sends fail, by their numbers, so that broken streams can be tried too.

ghost use Rattle.std.specs.Prelude.{◌≡◌, ◌≤◌, [], ◌∷◌, Some, false, true, IfOk, OnOk, OnErr, IsErrOf, length, slice_get};
ghost use Rattle.io_edge.specs.Faults.{Rose};
ghost use Rattle.link_edge.specs.Links.{AfterPoll, AfterSend, NoneFell};
ghost use Rattle.link_edge.specs.MemoryLinks.{new_link, meaning_of, AnswersPoll, after_poll, next_send_fails, AnswersSend, after_send};

use crate::answers::{LinkEnd, Polled};
use crate::link::Link;
use crate::step::Step;
use std::alloc::Global;
use std::marker::Model;
use text_core::{Listed, NoMemory};

/// A link in memory, which tells all of its meanings. Its polls go by a script, one step each, and behind the script each finds the
/// stream at its end. A send fails where its number is one of those that it is made to fail in, and in no other case. A count rises
/// by one in each call that is to raise it, and in no other.
#[derive(Drop)]
pub struct MemLink {
    script: Vec<Step>,
    taken: usize,
    failing: Vec<u64>,
    sends: u64,
    sent: Vec<Listed<u8>>,
    faults: u64,
    idles: u64,
    ends: u64,
    shut: bool,
}

impl Model for MemLink {
    ghost use Rattle.std.specs.Prelude.{◌≤◌, length};
    ghost use Rattle.link_edge.specs.MemoryLinks.{LinkInMemory};

    ghost Value = { LinkInMemory };

    ghost view = { λ l. record {
      script = l.script.items;
      taken = l.taken;
      failing = l.failing.items;
      sends = l.sends;
      sent = l.sent.items;
      faults = l.faults;
      idles = l.idles;
      ends = l.ends;
      shut = l.shut;
    } };

    ghost invariant = { λ l. l.taken ≤ length l.script.items };
}

impl MemLink {
    /// A link that goes by this script. The sends whose number, from 0, is in `failing` fail; a number stays at 2^64 - 1, and a send
    /// that ends for want of memory has none.
    pub fn new(alloc: Global, script: Vec<Step>, failing: Vec<u64>) -> Result<MemLink, NoMemory>
        ensures { IfOk result (λ link. link ≡ new_link script.items failing.items) }
    {
        Ok(MemLink {
            script,
            taken: 0,
            failing,
            sends: 0,
            sent: Vec::new(alloc),
            faults: 0,
            idles: 0,
            ends: 0,
            shut: false,
        })
    }

    /// The messages that were sent, in order.
    pub fn sent(&self) -> &[Listed<u8>]
        ensures { result.now ≡ self.now.sent }
    {
        &self.sent
    }

    /// What the next poll answers.
    fn next_answer(&self, alloc: Global) -> Polled
        ensures { AnswersPoll self.now result }
    {
        match self.script.get(self.taken) {
            None | Some(Step::Close) => Polled::Closed,
            Some(Step::Nothing) => Polled::Nothing,
            Some(Step::Fault) => Polled::Failed,
            Some(Step::Message(text)) => match text.items().to_vec(alloc) {
                Ok(copy) => Polled::Message(Listed::new(copy)),
                Err(_) => Polled::NoMemory,
            },
        }
    }

    /// Goes on to the next step, and counts the answer.
    fn count(&mut self, answer: &Polled)
        ensures after { self.new ≡ after_poll answer.now self.old }
        ensures counts { NoneFell (meaning_of self.old) (meaning_of self.new) }
    {
        match answer {
            Polled::NoMemory => return,
            Polled::Message(_) => {}
            Polled::Nothing => self.idles = self.idles.saturating_add(1),
            Polled::Closed => self.ends = self.ends.saturating_add(1),
            Polled::Failed => self.faults = self.faults.saturating_add(1),
        }
        if self.taken < self.script.len() {
            self.taken += 1;
        }
    }

    /// Whether the next send is one of those that fail.
    fn next_send_fails(&self) -> bool
        ensures { result ≡ next_send_fails self.now }
    {
        self.failing.contains(&self.sends)
    }

    /// Keeps a copy of a message as sent; without memory for it, all stays.
    fn keep(&mut self, alloc: Global, text: &[u8]) -> Result<(), NoMemory>
        ensures ok { OnOk result (self.new ≡ after_send text.now (Ok record {}) self.old) }
        ensures err { OnErr result (self.new ≡ self.old) }
    {
        let copy = text.to_vec(alloc)?;
        self.sent.push(Listed::new(copy))?;
        self.sends = self.sends.saturating_add(1);
        Ok(())
    }
}

impl Link for MemLink {
    ghost meaning = { λ l. meaning_of l };

    fn faults(&self) -> u64 {
        self.faults
    }

    fn idles(&self) -> u64 {
        self.idles
    }

    fn ends(&self) -> u64 {
        self.ends
    }

    fn shut(&self) -> bool {
        self.shut
    }

    fn poll(&mut self, alloc: Global) -> Polled
        // The next step decides the answer, and the answer what it leaves.
        requires { self.old.shut ≡ false }
        ensures answer { AnswersPoll self.old result }
        ensures counted { self.new ≡ after_poll result self.old }

        // What holds of all links.
        ensures after { AfterPoll (meaning_of self.old) result (meaning_of self.new) }
    {
        let answer = self.next_answer(alloc);
        self.count(&answer);
        answer
    }

    fn send(&mut self, alloc: Global, text: &[u8]) -> Result<(), LinkEnd>
        requires { self.old.shut ≡ false }
        ensures answer { AnswersSend self.old result }
        ensures counted { self.new ≡ after_send text.now result self.old }

        // What holds of all links.
        ensures ok { OnOk result (AfterSend (meaning_of self.old) (text.now ∷ []) (meaning_of self.new)) }
        ensures err { OnErr result (AfterSend (meaning_of self.old) [] (meaning_of self.new)) }
        ensures failed { IsErrOf result LinkEnd.Failed → Rose self.old.faults self.new.faults }
    {
        if self.next_send_fails() {
            self.sends = self.sends.saturating_add(1);
            self.faults = self.faults.saturating_add(1);
            return Err(LinkEnd::Failed);
        }
        match self.keep(alloc, text) {
            Ok(()) => Ok(()),
            Err(NoMemory) => Err(LinkEnd::NoMemory),
        }
    }

    fn close(&mut self) {
        self.shut = true;
    }
}
