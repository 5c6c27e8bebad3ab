//! Connections in two threads whose link is over before a request comes. That the link's side tells so to the session's side is
//! no clause of either: were it not told, these would never end.

ghost use Rattle.std.specs.Prelude.{◌≡◌, false, IfOk};

use crate::connections::table;
use crate::steady::{Steady, steady_trace};
use duo_run::{Ready, serve_connection};
use link_edge::{End, MemLink, OpenGate, Step};
use std::alloc::Global;
use std::sync::Wait;
use std::thread::Threads;
use text_core::NoMemory;
use trace_fits::fits;

/// A link whose first poll finds it closed, or broken.
fn link(alloc: Global, breaks: bool) -> Result<MemLink, NoMemory>
    ensures { IfOk result (λ link. link.shut ≡ false) }
{
    let mut script = Vec::new(alloc);
    script.push(if breaks { Step::Fault } else { Step::Close })?;
    MemLink::new(alloc, script, Vec::new(alloc))
}

/// How the connection of such a link ends, if the trace fits the table and memory lasts.
fn end_of<R: Threads + Wait + Sync>(rt: &R, alloc: Global, breaks: bool) -> Option<End> {
    let table = table(alloc)?;
    let mut trace = steady_trace(3);
    let Ok(link) = link(alloc, breaks) else {
        return None;
    };
    if !fits(&table, &mut trace) {
        return None;
    }
    let ready = Ready::<Steady> { table, trace };
    Some(serve_connection(rt, alloc, ready, link, OpenGate, Vec::new(alloc)).end)
}

#[test]
fn a_session_ends_with_its_link(rt: HostRuntime) {
    assert!(rt; matches!(end_of(&rt, rt.alloc(), false), Some(End::Closed)));
    assert!(rt; matches!(end_of(&rt, rt.alloc(), true), Some(End::Failed)));
}
