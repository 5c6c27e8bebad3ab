//! Two clients on one session, each over a link in a thread of its own: one lets it run, and the other pauses it while it runs.

ghost use Rattle.std.specs.Prelude.{◌≡◌, false, length};
ghost use Rattle.trace_world.specs.Fitting.{FitsTable};

use crate::connections::{are, table};
use crate::late::{Late, late_trace};
use crate::meeting::{Holding, Meeting};
use dbg_core::{Listeners, Session};
use hub_core::{ClientEnd, Hub, HubEnd, HubEvent, HubServed};
use hub_run::serve_hub;
use link_edge::{End, Link, LinkEnd, Polled};
use listen::Listener;
use std::alloc::Global;
use std::marker::Send;
use std::sync::Wait;
use std::sync::atomic::Ordering;
use std::test::Fail;
use std::thread::Threads;
use symtab::Table;
use text_core::{Listed, NoMemory};
use trace_core::Trace;
use trace_fits::fits;

/// What each client asks.
static REQUESTS: [&[&str]; 2] = [
    &[
        "{\"cmd\":\"continue\"}",
        "{\"cmd\":\"break\",\"line\":10}",
        "{\"cmd\":\"continue\"}",
        "{\"cmd\":\"bye\"}",
    ],
    &["{\"cmd\":\"pause\"}", "{\"cmd\":\"bye\"}"],
];

const STOPPED: &str =
    "{\"cycle\":99999,\"gens\":[],\"line\":10,\"notice\":\"stopped\",\"slot\":2,\"threads\":[\"A\"]}";

/// What each is told before the answer to its leave. The session stands at position 63 when it is paused.
static TOLD: [&[&str]; 2] = [
    &[
        "{\"ok\":true,\"seq\":1}",
        "{\"bp\":1,\"ok\":true,\"seq\":3,\"slots\":[2]}",
        "{\"ok\":true,\"seq\":4}",
        STOPPED,
    ],
    &[
        "{\"at\":{\"cycle\":12,\"slot\":3},\"ok\":true,\"seq\":2}",
        STOPPED,
    ],
];

/// A link that gives the requests of one of both: the pause only while a turn is held, what follows a pause behind its answer, and each leave
/// behind a stop.
#[derive(Drop)]
pub struct Sharer<'m> {
    meeting: &'m Meeting,
    second: bool,
    given: usize,
    stopped: bool,
    idles: u64,
    shut: bool,
}

impl<'m> Sharer<'m> {
    fn new(meeting: &'m Meeting, second: bool) -> Sharer<'m>
        ensures { result.shut ≡ false }
    {
        Sharer {
            meeting,
            second,
            given: 0,
            stopped: false,
            idles: 0,
            shut: false,
        }
    }

    /// Whether the next request is to be given, if one is left.
    fn is_ready(&self) -> bool {
        match (self.second, self.given) {
            (true, 0) => self.meeting.held.load(Ordering::SeqCst),
            (false, 0) | (false, 2) => true,
            (false, 1) => self.meeting.paused.load(Ordering::SeqCst),
            _ => self.stopped,
        }
    }

    /// The next request, if it is to be given now.
    fn next(&self) -> Option<&'static str> {
        if !self.is_ready() {
            return None;
        }
        let requests = if self.second {
            REQUESTS[1]
        } else {
            REQUESTS[0]
        };
        match requests.get(self.given) {
            Some(text) => Some(*text),
            None => None,
        }
    }
}

impl<'m> Link for Sharer<'m> {
    ghost use Rattle.duo_tests.specs.Silent.{silent};

    ghost meaning = { λ l. silent l.idles l.shut };

    fn faults(&self) -> u64 {
        0
    }

    fn idles(&self) -> u64 {
        self.idles
    }

    fn ends(&self) -> u64 {
        0
    }

    fn shut(&self) -> bool {
        self.shut
    }

    fn poll(&mut self, alloc: Global) -> Polled {
        if self.second && self.given > 0 {
            self.meeting.polled.store(true, Ordering::SeqCst);
        }
        match self.next() {
            Some(text) => match text.as_bytes().to_vec(alloc) {
                Ok(copy) => {
                    self.given = self.given.saturating_add(1);
                    Polled::Message(Listed::new(copy))
                }
                Err(_) => Polled::NoMemory,
            },
            None => {
                self.idles = self.idles.saturating_add(1);
                Polled::Nothing
            }
        }
    }

    fn send(&mut self, _alloc: Global, text: &[u8]) -> Result<(), LinkEnd> {
        if text.starts_with(b"{\"cycle\":") {
            self.stopped = true;
        }
        if text.starts_with(b"{\"at\":") {
            self.meeting.paused.store(true, Ordering::SeqCst);
        }
        Ok(())
    }

    fn close(&mut self) {
        self.shut = true;
    }
}

/// Serves both from a hub of two.
fn serve_links<'m, R: Threads + Wait + Sync, T: Trace + Send + Drop>(
    rt: &R,
    alloc: Global,
    hub: Hub<T>,
    meeting: &'m Meeting,
) -> Result<HubServed<Sharer<'m>>, NoMemory>
    requires two { length hub.here.items ≡ 2 }
{
    let mut links = Vec::new(alloc);
    links.push(Sharer::new(meeting, false))?;
    links.push(Sharer::new(meeting, true))?;
    let gate = Holding {
        meeting,
        first: true,
    };
    Ok(serve_hub(rt, alloc, hub, links, gate))
}

/// Serves both from a new session without listeners, if memory lasts.
fn serve_two<'m, R: Threads + Wait + Sync, T: Trace + Send + Drop>(
    rt: &R,
    alloc: Global,
    table: Table,
    trace: T,
    meeting: &'m Meeting,
) -> Result<HubServed<Sharer<'m>>, NoMemory>
    requires fits { FitsTable table (T.samples trace) }
{
    let none: Vec<Box<dyn Listener>> = Vec::new(alloc);
    let listeners = Listeners::new(alloc, none)?;
    let session = Session::new(alloc, table, trace);
    let hub = Hub::<T>::new(alloc, session, listeners, 2)?;
    serve_links(rt, alloc, hub, meeting)
}

/// Serves both, if the trace fits the table and memory lasts.
fn serve<'m, R: Threads + Wait + Sync>(
    rt: &R,
    alloc: Global,
    meeting: &'m Meeting,
) -> Option<HubServed<Sharer<'m>>> {
    let table = table(alloc)?;
    let mut trace = late_trace();
    if !fits(&table, &mut trace) {
        return None;
    }
    serve_two::<R, Late>(rt, alloc, table, trace, meeting).ok()
}

/// How many requests are in a journal, and how many turns.
fn counts(journal: &[HubEvent]) -> (u64, u64) {
    let mut requests: u64 = 0;
    let mut turns: u64 = 0;
    for event in journal {
        match event {
            HubEvent::Ask(_, _) => requests = requests.saturating_add(1),
            HubEvent::Turns(n) => turns = turns.saturating_add(*n),
            HubEvent::Left(_) => {}
        }
    }
    (requests, turns)
}

/// Whether a client was told these lines and then of its leave, and nothing was left over.
fn is_told(client: &ClientEnd, told: &[&str]) -> bool {
    match client.sent.split_last() {
        Some((last, front)) => {
            are(front, told)
                && last.items().starts_with(b"{\"ok\":true,\"seq\":")
                && client.unsent.is_empty()
                && client.unapplied.is_empty()
                && client.end == End::Bye
        }
        None => false,
    }
}

#[test]
fn a_session_that_two_share_is_paused_while_it_runs(rt: HostRuntime) -> Result<(), Fail> {
    let meeting = Meeting::new();
    let Some(served) = serve(&rt, rt.alloc(), &meeting) else {
        return Err("memory lasts".into());
    };
    assert!(rt;
        meeting.took_place(),
        "the second link is polled while a turn is held"
    );
    assert!(rt; served.clients.len() == 2, "clients");
    for k in 0..2 {
        assert!(rt; is_told(&served.clients[k], TOLD[k]), "client {k}");
    }
    assert!(rt; counts(&served.journal) == (6, 7813), "what is done");
    assert!(rt; served.end == HubEnd::AllLeft, "how it ends");
    Ok(())
}
