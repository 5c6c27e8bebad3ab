//! The one session: it is served to all links that came, and each is closed behind it.

ghost use Rattle.std.specs.Prelude.{◌≡◌, ◌≤◌, All, IfOk, length, map};
ghost use Rattle.link_edge.specs.Links.{IsFresh, after_close};
ghost use Rattle.show_net.specs.Over.{Over, Shows};
ghost use Rattle.hub_net.specs.Clients.{IsHub};

use dbg_core::{Listeners, Session};
use hub_core::{Hub, HubServed};
use hub_run::serve_hub;
use link_edge::{Link, OpenGate};
use listen::Listener;
use show_net::{Service, Shown, ready_for};
use std::alloc::Global;
use std::sync::Wait;
use std::thread::Threads;
use text_core::NoMemory;

/// Closes each link.
fn close_all<L: Link>(links: &mut [L])
    ensures closed { map L.meaning links.new ≡ map after_close (map L.meaning links.old) }
    ensures len { length links.new ≡ length links.old }
{
    for link in links.iter_mut() {
        link.close();
    }
}

/// Serves links that have just come, 1 to 8, on one session with these listeners, at most 65,536, and closes them. Fails only where there is
/// no memory for the session; the links are let go then.
///
/// Where the links are silent, it waits, and may never return.
pub(crate) fn open<R: Threads + Wait + Sync, L: Link>(
    rt: &R,
    alloc: Global,
    service: &Service,
    links: Vec<L>,
    listeners: Vec<Box<dyn Listener>>,
) -> Result<HubServed<L>, NoMemory>
    requires shows { (over : Over) × Shows service.now over }
    requires fresh { All IsFresh (map L.meaning links.items) }
    requires some { 1 ≤ length links.items }
    requires seats { length links.items ≤ 8 }
    requires few { length listeners.items ≤ 65536 }
    ensures hub { IfOk result (λ hub. (over : Over) → Shows service.now over
        → IsHub (λ l. L.meaning l) over (map (λ b. heard b) listeners.items) (length links.items) hub) }
{
    let Shown { table, trace } = ready_for(alloc, service)?;
    let listeners = Listeners::new(alloc, listeners)?;
    let session = Session::new(alloc, table, trace);
    let hub = Hub::new(alloc, session, listeners, links.len() as u32)?;
    let mut served = serve_hub(rt, alloc, hub, links, OpenGate);
    close_all(&mut served.links);
    Ok(served)
}
