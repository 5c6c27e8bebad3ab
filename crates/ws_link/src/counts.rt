//! The counts of a link that tells nothing else.

ghost use Rattle.std.specs.Prelude.{◌≡◌, []};
ghost use Rattle.io_edge.specs.Faults.{Rose};
ghost use Rattle.link_edge.specs.Links.{AfterPoll, AfterSend, IsFresh, after_close};
ghost use Rattle.ws_link.specs.Untold.{untold};

use link_edge::{LinkEnd, Polled};

/// How often a link failed, had nothing and was at its end, each of which stays at 2^64 - 1, and whether it was shut.
#[derive(Clone, Copy)]
pub struct Counts {
    pub faults: u64,
    pub idles: u64,
    pub ends: u64,
    pub shut: bool,
}

impl Counts {
    /// The counts of a link that was not used.
    pub fn new() -> Counts
        ensures { IsFresh (untold result) }
    {
        Counts {
            faults: 0,
            idles: 0,
            ends: 0,
            shut: false,
        }
    }

    /// Counts what a poll answers.
    pub fn count_poll(&mut self, answer: &Polled)
        ensures { AfterPoll (untold self.old) answer.now (untold self.new) }
    {
        match answer {
            Polled::Message(_) | Polled::NoMemory => {}
            Polled::Nothing => self.idles = self.idles.saturating_add(1),
            Polled::Closed => self.ends = self.ends.saturating_add(1),
            Polled::Failed => self.faults = self.faults.saturating_add(1),
        }
    }

    /// Counts why a text was not sent.
    pub fn count_unsent(&mut self, end: LinkEnd)
        ensures after { AfterSend (untold self.old) [] (untold self.new) }
        ensures failed { end ≡ LinkEnd.Failed → Rose self.old.faults self.new.faults }
    {
        match end {
            LinkEnd::Failed => self.faults = self.faults.saturating_add(1),
            LinkEnd::NoMemory => {}
        }
    }

    /// Notes that the link is shut.
    pub fn note_close(&mut self)
        ensures { untold self.new ≡ after_close (untold self.old) }
    {
        self.shut = true;
    }
}
