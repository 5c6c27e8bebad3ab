//! What a session shows at a stop, when it is asked without a request.

ghost use Rattle.std.specs.Prelude.{◌≡◌, nat_eq};
ghost use Rattle.std.specs.List.{list_any};
ghost use Rattle.trace_world.specs.Fitting.{FitsTable};

use crate::steady::{Steady, steady_trace};
use bv_core::Bv;
use dbg_core::{Listeners, Session};
use machine_core::{Asked, Cmd, Request, Shown};
use std::alloc::Global;
use std::test::Fail;
use symtab::Table;
use symtab_json::read_table;
use text_core::{NoMemory, Text};
use trace_core::Trace;
use trace_fits::fits;

/// A symbol file of one statement in two instances, the second of which is never enabled.
static SYMBOLS: &str = "{\"instances\":[[\"A\",0],[\"A.u\",0]],\"nodes\":[[\"en\",1]],\"slots\":[\
     {\"gens\":[],\"line\":8,\"names\":[\"en\",\"q\",\"t\",\"k\"],\"rows\":[\
     {\"cells\":[0,\"unset\",\"removed\",\"8'h2a\"],\"on\":0},{\"cells\":[0,0,0,0],\"on\":\"1'h0\"}],\"variant\":0}],\
     \"top\":\"A\",\"variants\":[[\"A\",[]]],\"version\":1}";

/// Whether an instance is among these.
fn is_among(threads: &[u32], instance: u32) -> bool
    ensures { result ≡ list_any (nat_eq instance) threads.now }
{
    threads.iter().any(|other| instance == *other)
}

/// A session that has stepped from the start, if memory lasts.
fn stepped<T: Trace + Drop>(alloc: Global, table: Table, trace: T) -> Option<Session<T>>
    requires fits { FitsTable table (T.samples trace) }
{
    let mut listeners = Listeners::new(alloc, Vec::new(alloc)).ok()?;
    let mut session = Session::new(alloc, table, trace);
    let step = Asked::Good(Request {
        id: None,
        cmd: Cmd::Step { instance: None },
    });
    session.request(&step, &mut listeners).ok()?;
    session.settle(&mut listeners);
    Some(session)
}

/// The threads at the position, and what is shown in the first instance, if it is one of them.
fn shown<T: Trace>(
    session: &mut Session<T>,
) -> Result<(Vec<u32>, Option<Vec<(Text, Shown)>>), NoMemory> {
    let threads = session.threads()?;
    if !is_among(&threads, 0) {
        return Ok((threads, None));
    }
    let values = session.values(0)?;
    Ok((threads, Some(values)))
}

/// Whether these are shown.
fn are(values: &[(Text, Shown)], want: &[(&str, Shown)]) -> bool {
    values.len() == want.len()
        && values.iter().zip(want.iter()).all(|(value, (name, shown))| value.0.bytes()
            == name.as_bytes()
            && value.1 == *shown)
}

/// The value of these bits.
fn value(width: u8, value: u128) -> Shown {
    match Bv::make(width, value) {
        Some(bits) => Shown::Value(bits),
        None => Shown::Unknown,
    }
}

/// A session that has stepped to the statement, if the trace fits the table and memory lasts.
fn session(alloc: Global) -> Option<Session<Steady>> {
    let table = read_table(alloc, SYMBOLS.as_bytes()).ok()?;
    let mut trace = steady_trace(3);
    if !fits(&table, &mut trace) {
        return None;
    }
    stepped(alloc, table, trace)
}

#[test]
fn a_session_shows_its_threads_and_their_values(rt: HostRuntime) -> Result<(), Fail> {
    let Some(mut session) = session(rt.alloc()) else {
        return Err("memory lasts".into());
    };
    let Ok((threads, values)) = shown(&mut session) else {
        return Err("memory lasts".into());
    };
    let Some(values) = values else {
        return Err("the first instance is a thread".into());
    };
    assert!(rt;
        threads.len() == 1 && is_among(&threads, 0),
        "the second instance is no thread"
    );
    let want = [
        ("en", value(1, 1)),
        ("q", Shown::Unset),
        ("t", Shown::Removed),
        ("k", value(8, 42)),
    ];
    assert!(rt; are(&values, &want), "what is shown");
    Ok(())
}
