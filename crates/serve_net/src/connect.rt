//! One connection: a session of its own, served, and its link closed behind it.

ghost use Rattle.std.specs.Prelude.{◌≡◌, ◌≤◌, IfOk, length, map};
ghost use Rattle.link_edge.specs.Links.{IsFresh};
ghost use Rattle.duo_run.specs.Journals.{requests_of};
ghost use Rattle.show_net.specs.Over.{Over, Shows};
ghost use Rattle.serve_net.specs.Members.{IsMember};

use duo_run::{Event, Ready, Served, serve_connection};
use link_edge::{Link, OpenGate};
use listen::Listener;
use show_net::{Service, Shown, ready_for};
use std::alloc::Global;
use std::sync::Wait;
use std::thread::Threads;
use text_core::NoMemory;

/// How many requests were applied.
#[tactic(auto, unfolding(duo_run::specs::Journals::requests_of))]
pub(crate) fn request_count(events: &[Event]) -> u64
    ensures { result ≡ length (requests_of events.now) }
{
    let mut count = 0;
    for event in events {
        if let Event::Request(_) = event {
            count += 1;
        }
    }
    count
}

/// Serves a link that has just come with these listeners, at most 65,536, and closes it. Fails only where there is no memory for the
/// session; the link is let go then.
///
/// Where the link is silent, it waits, and may never return.
pub(crate) fn connect<R: Threads + Wait + Sync, L: Link>(
    rt: &R,
    alloc: Global,
    service: &Service,
    link: L,
    listeners: Vec<Box<dyn Listener>>,
) -> Result<Served<L>, NoMemory>
    requires shows { (over : Over) × Shows service.now over }
    requires fresh { IsFresh (L.meaning link) }
    requires few { length listeners.items ≤ 65536 }
    ensures member { IfOk result (λ served. (over : Over) → Shows service.now over
        → IsMember (λ l. L.meaning l) over (map (λ b. heard b) listeners.items) served) }
{
    let Shown { table, trace } = ready_for(alloc, service)?;
    let ready = Ready { table, trace };
    let mut served = serve_connection(rt, alloc, ready, link, OpenGate, listeners);
    served.link.close();
    Ok(served)
}
