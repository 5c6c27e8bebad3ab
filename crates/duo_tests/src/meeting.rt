//! A link and a gate that wait for one another: the gate holds a turn until the link was polled while it held it.

use link_edge::{Gate, Link, LinkEnd, Polled};
use std::alloc::Global;
use std::sync::atomic::{AtomicBool, Ordering};
use std::thread;
use text_core::Listed;

/// So often does the gate look whether the link was polled.
const TRIES: u64 = 20_000_000;

/// What the client asks: the second request only while a turn is held, and the last only behind a stop.
static REQUESTS: [&str; 5] = [
    "{\"cmd\":\"continue\"}",
    "{\"cmd\":\"pause\"}",
    "{\"cmd\":\"break\",\"line\":10}",
    "{\"cmd\":\"continue\"}",
    "{\"cmd\":\"bye\"}",
];

/// What the link and the gate know of one another.
#[derive(Drop)]
pub struct Meeting {
    /// A turn is held, or was.
    pub held: AtomicBool,
    /// The link was polled again after it gave the request that is given while a turn is held.
    pub polled: AtomicBool,
    /// A client was told that the session is paused.
    pub paused: AtomicBool,
    /// The gate held the turn no longer, though the link was not polled.
    gave_up: AtomicBool,
}

impl Meeting {
    pub fn new() -> Meeting {
        Meeting {
            held: AtomicBool::new(false),
            polled: AtomicBool::new(false),
            paused: AtomicBool::new(false),
            gave_up: AtomicBool::new(false),
        }
    }

    /// Whether the link was polled while the gate held a turn.
    pub fn took_place(&self) -> bool {
        self.polled.load(Ordering::SeqCst) && !self.gave_up.load(Ordering::SeqCst)
    }
}

/// A gate that holds its first turn.
#[derive(Drop)]
pub struct Holding<'m> {
    pub meeting: &'m Meeting,
    pub first: bool,
}

impl<'m> Gate for Holding<'m> {
    fn before_turn(&mut self) {
        if !self.first {
            return;
        }
        self.first = false;
        self.meeting.held.store(true, Ordering::SeqCst);
        for _ in 0..TRIES {
            if self.meeting.polled.load(Ordering::SeqCst) {
                return;
            }
            thread::yield_now();
        }
        self.meeting.gave_up.store(true, Ordering::SeqCst);
    }
}

/// A link that gives the requests.
#[derive(Drop)]
pub struct Client<'m> {
    pub meeting: &'m Meeting,
    pub given: usize,
    pub stopped: bool,
    pub idles: u64,
    pub shut: bool,
}

impl<'m> Client<'m> {
    /// Whether the next request is to be given, if one is left.
    fn is_ready(&self) -> bool {
        match self.given {
            1 => self.meeting.held.load(Ordering::SeqCst),
            4 => self.stopped,
            _ => true,
        }
    }
}

impl<'m> Link for Client<'m> {
    ghost use Rattle.duo_tests.specs.Silent.{silent};

    ghost meaning = { λ l. silent l.idles l.shut };

    fn faults(&self) -> u64 {
        0
    }

    fn idles(&self) -> u64 {
        self.idles
    }

    fn ends(&self) -> u64 {
        0
    }

    fn shut(&self) -> bool {
        self.shut
    }

    fn poll(&mut self, alloc: Global) -> Polled {
        if self.given > 1 {
            self.meeting.polled.store(true, Ordering::SeqCst);
        }
        let next = if self.is_ready() {
            REQUESTS.get(self.given)
        } else {
            None
        };
        match next {
            Some(text) => match text.as_bytes().to_vec(alloc) {
                Ok(copy) => {
                    self.given = self.given.saturating_add(1);
                    Polled::Message(Listed::new(copy))
                }
                Err(_) => Polled::NoMemory,
            },
            None => {
                self.idles = self.idles.saturating_add(1);
                Polled::Nothing
            }
        }
    }

    fn send(&mut self, _alloc: Global, text: &[u8]) -> Result<(), LinkEnd> {
        if text.starts_with(b"{\"cycle\":") {
            self.stopped = true;
        }
        Ok(())
    }

    fn close(&mut self) {
        self.shut = true;
    }
}
