//! A connection in two threads, whose client asks for a pause while the session runs.

use crate::connections::{are, table};
use crate::late::{Late, late_trace};
use crate::meeting::{Client, Holding, Meeting};
use duo_run::{Event, Ready, Served, serve_connection};
use link_edge::End;
use std::alloc::Global;
use std::sync::Wait;
use std::test::Fail;
use std::thread::Threads;
use trace_fits::fits;

/// What is told, in order. The session stands at position 63 when it is paused, and stops next in the last cycle.
static TOLD: [&str; 6] = [
    "{\"ok\":true,\"seq\":1}",
    "{\"at\":{\"cycle\":12,\"slot\":3},\"ok\":true,\"seq\":2}",
    "{\"bp\":1,\"ok\":true,\"seq\":3,\"slots\":[2]}",
    "{\"ok\":true,\"seq\":4}",
    "{\"cycle\":99999,\"gens\":[],\"line\":10,\"notice\":\"stopped\",\"slot\":2,\"threads\":[\"A\"]}",
    "{\"ok\":true,\"seq\":5}",
];

/// Serves the client, if the trace fits the table and memory lasts.
fn serve<'m, R: Threads + Wait + Sync>(
    rt: &R,
    alloc: Global,
    meeting: &'m Meeting,
) -> Option<Served<Client<'m>>> {
    let table = table(alloc)?;
    let mut trace = late_trace();
    if !fits(&table, &mut trace) {
        return None;
    }
    let ready = Ready::<Late> { table, trace };
    let client = Client {
        meeting,
        given: 0,
        stopped: false,
        idles: 0,
        shut: false,
    };
    let gate = Holding {
        meeting,
        first: true,
    };
    Some(serve_connection(rt, alloc, ready, client, gate, Vec::new(alloc)))
}

/// How many requests are in a journal, and how many turns.
fn counts(journal: &[Event]) -> (u64, u64) {
    let mut requests: u64 = 0;
    let mut turns: u64 = 0;
    for event in journal {
        match event {
            Event::Request(_) => requests = requests.saturating_add(1),
            Event::Turns(n) => turns = turns.saturating_add(*n),
        }
    }
    (requests, turns)
}

#[test]
fn a_session_is_paused_while_it_runs(rt: HostRuntime) -> Result<(), Fail> {
    let meeting = Meeting::new();
    let Some(served) = serve(&rt, rt.alloc(), &meeting) else {
        return Err("memory lasts".into());
    };
    assert!(rt;
        meeting.took_place(),
        "the link is polled while a turn is held"
    );
    assert!(rt; are(&served.sent, &TOLD), "what is told");
    assert!(rt; counts(&served.journal) == (5, 7813), "what is done");
    assert!(rt;
        served.unsent.is_empty() && served.unapplied.is_empty(),
        "nothing is left"
    );
    assert!(rt; served.end == End::Bye, "how it ends");
    Ok(())
}
