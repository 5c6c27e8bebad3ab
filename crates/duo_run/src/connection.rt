//! A connection from its table and its trace on.

ghost use Rattle.std.specs.Prelude.{◌≡◌, ◌≤◌, false, length, map};
ghost use Rattle.world_core.specs.World.{World};
ghost use Rattle.trace_world.specs.Fitting.{FitsTable};
ghost use Rattle.machine_core.specs.Reading.{Reader, IsReader};
ghost use Rattle.machine_core.specs.Machine.{Machine, opening};
ghost use Rattle.dbg_core.specs.World.{world_of};
ghost use Rattle.duo_run.specs.Connections.{Carries, Applies};

use crate::desk::Desk;
use crate::duo::serve_duo;
use crate::served::Served;
use dbg_core::{Listeners, Session};
use link_edge::{Gate, Link};
use listen::Listener;
use std::alloc::Global;
use std::marker::Send;
use std::sync::Wait;
use std::thread::Threads;
use symtab::Table;
use text_core::NoMemory;
use trace_core::Trace;

/// What a session is made of: a table, and a trace that fits it.
#[derive(Drop)]
pub struct Ready<T> {
    pub table: Table,
    pub trace: T,
}

/// A connection for which there was no memory: its link is not polled.
pub(crate) fn unserved<L: Link>(alloc: Global, link: L) -> Served<L>
    ensures carried { Carries (L.meaning link) (L.meaning result.link) result.journal.items result.unapplied.items result.sent.items
        result.unsent.items result.end }
    ensures applied { (w : World) (m : Machine) (read : Reader) → IsReader read
        → Applies read w m result.journal.items result.sent.items result.unsent.items result.end }
{
    let mut desk = Desk::new(alloc, link);
    desk.outlet.lose();
    desk.into_served()
}

/// Serves a link in two threads from a new session over a table and a trace, with these listeners, at most 65,536 of them. Where there
/// is no memory for the listeners, it ends at once.
///
/// Where the link is silent, it waits, and may never return.
pub fn serve_connection<R: Threads + Wait + Sync, T: Trace + Send + Drop, L: Link, G: Gate>(
    rt: &R,
    alloc: Global,
    ready: Ready<T>,
    link: L,
    gate: G,
    listeners: Vec<Box<dyn Listener>>,
) -> Served<L>
    requires fits { FitsTable ready.table (T.samples ready.trace) }
    requires usable { (L.meaning link).shut ≡ false }
    requires few { length listeners.items ≤ 65536 }
    ensures carried { Carries (L.meaning link) (L.meaning result.link) result.journal.items result.unapplied.items result.sent.items
        result.unsent.items result.end }
    ensures applied { (read : Reader) → IsReader read → Applies read (world_of ready.table (T.samples ready.trace))
        (opening (map (λ b. heard b) listeners.items)) result.journal.items result.sent.items result.unsent.items result.end }
{
    match Listeners::new(alloc, listeners) {
        Ok(listeners) => {
            let session = Session::new(alloc, ready.table, ready.trace);
            serve_duo(rt, alloc, session, link, gate, listeners)
        }
        Err(NoMemory) => unserved(alloc, link),
    }
}
