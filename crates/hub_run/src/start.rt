//! The ports of all links: a thread for each, where one can be started.

ghost use Rattle.std.specs.Prelude.{◌≡◌, ◌≤◌, [], length, map, false, vec_capacity};
ghost use Rattle.rtrb.specs.Ring.{sent, received};
ghost use Rattle.link_edge.specs.Links.{Meaning};
ghost use Rattle.link_pump.specs.Sides.{AreFresh};
ghost use Rattle.hub_core.specs.Ends.{AllOpen};
ghost use Rattle.hub_run.specs.Ports.{Begins, AllBegin};

use crate::port::Port;
use crate::post::{Begun, LinkPost, Post};
use crate::side::{serve_link, unread_link};
use link_edge::Link;
use link_pump::{Ends, Pump, Rings, ToLink, push_waiting};
use std::alloc::Global;
use std::snapshot::Snapshot;
use std::sync::Wait;
use std::thread::{Scope, Threads};
use text_core::NoMemory;

/// A port over these rings; where no thread can be started, its link is at hand.
fn start_over<'s, 'r: 's, E, R: Threads + Wait + Sync, L: Link + 's>(
    scope: &Scope<'s, E>,
    rt: &'r R,
    alloc: Global,
    link: L,
    rings: Rings,
) -> (Option<LinkPost<L>>, Port<'r, R, L>)
    requires usable { (L.meaning link).shut ≡ false }
    requires fresh { AreFresh rings.messages rings.from_link rings.to_link rings.lines rings.unapplied }
    ensures { Begins L.meaning (L.meaning link) result.0 result.1 }
{
    let Rings {
        messages,
        from_link,
        to_link,
        lines,
        unapplied,
    } = rings;
    let begun = Begun {
        link: Snapshot::of(&link),
        messages: Snapshot::of(&messages),
        lines: Snapshot::of(&lines),
    };
    let child = scope.spawn_with(
        begun,
        move || -> Pump<L>
            requires usable { (L.meaning link).shut ≡ false }
            requires fresh { (sent messages ≡ []) × (received lines ≡ []) }
        { serve_link(rt, alloc, link, messages, lines) },
    );
    match child {
        Ok(child) => (
            Some(Post { child, unapplied }),
            Port::Far(Ends::begin(rt, from_link, to_link)),
        ),
        Err(refused) => {
            let mut to_link = to_link;
            push_waiting(rt, &mut to_link, ToLink::SessionOver);
            (None, Port::Near(unread_link((refused.value)(), to_link)))
        }
    }
}

/// A port; where there is no memory for its rings, or no thread can be started, its link is at hand.
fn start_one<'s, 'r: 's, E, R: Threads + Wait + Sync, L: Link + 's>(
    scope: &Scope<'s, E>,
    rt: &'r R,
    alloc: Global,
    link: L,
) -> (Option<LinkPost<L>>, Port<'r, R, L>)
    requires { (L.meaning link).shut ≡ false }
    ensures { Begins L.meaning (L.meaning link) result.0 result.1 }
{
    match Rings::new(alloc) {
        Ok(rings) => start_over(scope, rt, alloc, link, rings),
        Err(NoMemory) => (None, Port::Near(link)),
    }
}

/// A port for each link, in order.
pub(crate) fn start_all<'s, 'r: 's, E, R: Threads + Wait + Sync, L: Link + 's>(
    scope: &Scope<'s, E>,
    rt: &'r R,
    alloc: Global,
    links: Vec<L>,
    posts: Vec<Option<LinkPost<L>>>,
    ports: Vec<Port<'r, R, L>>,
) -> (Vec<Option<LinkPost<L>>>, Vec<Port<'r, R, L>>)
    requires usable { AllOpen (map L.meaning links.items) }
    requires empty { (posts.items ≡ []) × (ports.items ≡ []) }
    requires room { (length links.items ≤ vec_capacity posts) × (length links.items ≤ vec_capacity ports) }
    ensures begun { AllBegin L.meaning (map L.meaning links.items) result.0.items result.1.items }
    ensures len { (length result.0.items ≡ length links.items) × (length result.1.items ≡ length links.items) }
{
    let mut posts = posts;
    let mut ports = ports;
    for link in links {
        let (post, port) = start_one(scope, rt, alloc, link);
        let _ = posts.push(post);
        let _ = ports.push(port);
    }
    (posts, ports)
}
