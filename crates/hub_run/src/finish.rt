//! What is given back of each client: what the session's side did with it, and what its link's side did, together.

ghost use Rattle.std.specs.Prelude.{◌≡◌, ◌≤◌, [], List, ℕ, Bool, length, map, vec_capacity};
ghost use Rattle.link_edge.specs.Links.{Meaning};
ghost use Rattle.link_pump.specs.Outlets.{opened};
ghost use Rattle.hub_core.specs.Ends.{ClientServed, AllServed};
ghost use Rattle.hub_run.specs.Ports.{FarTied};
ghost use Rattle.hub_run.specs.Finished.{FarStands, Stands, AllStand, Ready, AllReady};

use crate::port::Port;
use crate::post::{LinkPost, Post};
use hub_core::ClientEnd;
use link_edge::Link;
use link_pump::{Ends, Gathered, Outlet, end_in_two, gather_shut};
use std::sync::Wait;
use std::thread;
use std::thread::Threads;

/// The link of a client, shut where the client has left. No thread has shut the link of a client that is here: for one it would wait.
fn shut_where<R: Wait, L: Link>(rt: &R, link: L, left: bool) -> L
    ensures same { opened (L.meaning result) ≡ opened (L.meaning link) }
    ensures shut { (L.meaning result).shut ≡ left }
{
    let mut link = link;
    if link.shut() == left {
        return link;
    }
    if left {
        link.close();
        return link;
    }
    for _ in rt.forever() {
        thread::yield_now();
    }
    unreachable!()
}

/// Ends a client whose link is in a thread of its own: the thread is told that the session is over, unless its client has left, and joined.
fn finish_far<'r, R: Threads + Wait + Sync, L: Link>(
    rt: &R,
    post: LinkPost<L>,
    ends: Ends<'r, R>,
    end: ClientEnd,
) -> (L, ClientEnd)
    requires tied { FarTied post ends }
    requires few { length end.unapplied.items ≤ 1 }
    ensures { (start : Meaning) (asked lines : List (List ℕ)) (took here : Bool) → FarStands L.meaning start post ends.entry end asked lines took here
        → ClientServed start (L.meaning result.0) result.1 asked lines took here }
{
    let Post { child, unapplied } = post;
    let ClientEnd {
        unapplied: first,
        sent: _,
        unsent: kept,
        end,
    } = end;
    let left = ends.shut();
    let (messages, lines) = ends.finish();
    let Gathered { outlet, unapplied } = gather_shut(
        child.join(rt),
        messages,
        lines,
        first,
        kept,
        unapplied,
    );
    let Outlet {
        link,
        sent,
        unsent,
        over,
    } = outlet;
    (
        shut_where(rt, link, left),
        ClientEnd {
            unapplied,
            sent,
            unsent,
            end: end_in_two(end, over),
        },
    )
}

/// Ends a client.
fn finish_one<'r, R: Threads + Wait + Sync, L: Link>(
    rt: &R,
    post: Option<LinkPost<L>>,
    port: Port<'r, R, L>,
    end: ClientEnd,
) -> (L, ClientEnd)
    requires { Ready post port end }
    ensures { (start : Meaning) (asked lines : List (List ℕ)) (took here : Bool) → Stands L.meaning start post port.entry end asked lines took here
        → ClientServed start (L.meaning result.0) result.1 asked lines took here }
{
    match (post, port) {
        (Some(post), Port::Far(ends)) => finish_far(rt, post, ends, end),
        (None, Port::Near(link)) => (link, end),
        (Some(_), Port::Near(_)) | (None, Port::Far(_)) => unreachable!(),
    }
}

/// Ends each client, in order.
pub(crate) fn finish_all<'r, R: Threads + Wait + Sync, L: Link>(
    rt: &R,
    posts: Vec<Option<LinkPost<L>>>,
    ports: Vec<Port<'r, R, L>>,
    ends: Vec<ClientEnd>,
    links: Vec<L>,
    served: Vec<ClientEnd>,
) -> (Vec<L>, Vec<ClientEnd>)
    requires each { AllReady posts.items ports.items ends.items }
    requires empty { (links.items ≡ []) × (served.items ≡ []) }
    requires room { (length posts.items ≤ vec_capacity links) × (length posts.items ≤ vec_capacity served) }
    ensures { (asked lines : ℕ → List (List ℕ)) (took here : ℕ → Bool) (starts : List Meaning)
        → AllStand L.meaning 0 asked lines took here starts posts.items ports.entry.items ends.items
        → AllServed 0 asked lines took here starts (map L.meaning result.0.items) result.1.items }
{
    let mut links = links;
    let mut served = served;
    let mut posts = posts.into_iter();
    let mut ends = ends.into_iter();
    for port in ports {
        match posts.next() {
            Some(post) => match ends.next() {
                Some(end) => {
                    let (link, end) = finish_one(rt, post, port, end);
                    let _ = links.push(link);
                    let _ = served.push(end);
                }
                None => unreachable!(),
            },
            None => unreachable!(),
        }
    }
    (links, served)
}
