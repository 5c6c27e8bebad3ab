//! Connections in lock step, over a small table and a trace in which its one node is always 1.

ghost use Rattle.std.specs.Prelude.{◌≡◌, ◌≤◌, false, length, IfOk};
ghost use Rattle.trace_world.specs.Fitting.{FitsTable};

use crate::links::message;
use crate::steady::{Steady, steady_trace};
use dbg_core::{Listeners, Session};
use duo_run::{Event, Ready, Served, serve_lockstep};
use link_edge::{End, Link, MemLink, OpenGate, Step};
use listen::{LineHits, Listener};
use std::alloc::Global;
use std::sync::Wait;
use std::test::Fail;
use symtab::Table;
use symtab_json::read_table;
use text_core::{Listed, NoMemory};
use trace_core::Trace;
use trace_fits::fits;

/// A symbol file of five statements; the third is on line 10.
static SYMBOLS: &str = "{\"instances\":[[\"A\",0]],\"nodes\":[[\"en\",1]],\"slots\":[\
     {\"gens\":[],\"line\":8,\"names\":[],\"rows\":[{\"cells\":[],\"on\":\"1'h1\"}],\"variant\":0},\
     {\"gens\":[],\"line\":9,\"names\":[],\"rows\":[{\"cells\":[],\"on\":\"1'h1\"}],\"variant\":0},\
     {\"gens\":[],\"line\":10,\"names\":[],\"rows\":[{\"cells\":[],\"on\":0}],\"variant\":0},\
     {\"gens\":[],\"line\":12,\"names\":[],\"rows\":[{\"cells\":[],\"on\":\"1'h1\"}],\"variant\":0},\
     {\"gens\":[],\"line\":14,\"names\":[],\"rows\":[{\"cells\":[],\"on\":\"1'h1\"}],\"variant\":0}],\
     \"top\":\"A\",\"variants\":[[\"A\",[]]],\"version\":1}";

const BREAK: &str = "{\"cmd\":\"break\",\"line\":10}";

const CONTINUE: &str = "{\"cmd\":\"continue\"}";

const BYE: &str = "{\"cmd\":\"bye\"}";

const BROKE: &str = "{\"bp\":1,\"ok\":true,\"seq\":1,\"slots\":[2]}";

const WENT_ON: &str = "{\"ok\":true,\"seq\":2}";

const STOPPED: &str =
    "{\"cycle\":0,\"gens\":[],\"line\":10,\"notice\":\"stopped\",\"slot\":2,\"threads\":[\"A\"]}";

const LEFT: &str = "{\"ok\":true,\"seq\":3}";

/// A connection: what its link gives (a text a message, none of it nothing), which sends fail, over how many cycles, whether a listener
/// is there; and what it leaves: its journal (a text a request, none a turn), what was sent and what was not, and its end.
struct Case {
    script: &'static [&'static str],
    failing: &'static [u64],
    cycles: u64,
    counts: bool,
    journal: &'static [&'static str],
    sent: &'static [&'static str],
    unsent: &'static [&'static str],
    end: End,
}

static CASES: [Case; 4] = [
    Case {
        script: &[BREAK, CONTINUE, "", BYE],
        failing: &[],
        cycles: 3,
        counts: false,
        journal: &[BREAK, CONTINUE, "", BYE],
        sent: &[BROKE, WENT_ON, STOPPED, LEFT],
        unsent: &[],
        end: End::Bye,
    },
    Case {
        script: &[BREAK, CONTINUE, ""],
        failing: &[],
        cycles: 3,
        counts: false,
        journal: &[BREAK, CONTINUE, ""],
        sent: &[BROKE, WENT_ON, STOPPED],
        unsent: &[],
        end: End::Closed,
    },
    Case {
        script: &[CONTINUE],
        failing: &[],
        cycles: 100_000,
        counts: true,
        journal: &[CONTINUE, ""],
        sent: &["{\"ok\":true,\"seq\":1}"],
        unsent: &["{\"k\":0,\"notice\":\"rows\",\"rows\":[]}"],
        end: End::Closed,
    },
    Case {
        script: &[BREAK, CONTINUE, "", BYE],
        failing: &[0],
        cycles: 3,
        counts: false,
        journal: &[BREAK],
        sent: &[],
        unsent: &[BROKE],
        end: End::Failed,
    },
];

fn script(alloc: Global, texts: &[&str]) -> Result<Vec<Step>, NoMemory> {
    let mut script = Vec::new(alloc);
    for text in texts {
        let step = if text.is_empty() {
            Step::Nothing
        } else {
            message(alloc, text)?
        };
        script.push(step)?;
    }
    Ok(script)
}

fn link(alloc: Global, case: &Case) -> Result<MemLink, NoMemory>
    ensures { IfOk result (λ link. link.shut ≡ false) }
{
    let script = script(alloc, case.script)?;
    let failing = case.failing.to_vec(alloc)?;
    MemLink::new(alloc, script, failing)
}

fn listeners(alloc: Global, counts: bool) -> Result<Vec<Box<dyn Listener>>, NoMemory>
    ensures { IfOk result (λ listeners. length listeners.items ≤ 1) }
{
    let mut listeners: Vec<Box<dyn Listener>> = Vec::new(alloc);
    if counts {
        let hits = LineHits::new(alloc)?;
        listeners.push(Box::new(alloc, hits)?)?;
    }
    Ok(listeners)
}

/// The table of the symbol file, if memory lasts.
pub fn table(alloc: Global) -> Option<Table> {
    read_table(alloc, SYMBOLS.as_bytes()).ok()
}

/// Serves a link in lock step from a new session, if memory lasts.
fn in_lock_step<R: Wait, T: Trace + Drop, L: Link>(
    rt: &R,
    alloc: Global,
    ready: Ready<T>,
    link: L,
    listeners: Vec<Box<dyn Listener>>,
) -> Option<Served<L>>
    requires fits { FitsTable ready.table (T.samples ready.trace) }
    requires usable { (L.meaning link).shut ≡ false }
    requires few { length listeners.items ≤ 65536 }
{
    match Listeners::new(alloc, listeners) {
        Ok(listeners) => {
            let session = Session::new(alloc, ready.table, ready.trace);
            Some(serve_lockstep(rt, alloc, session, link, OpenGate, listeners))
        }
        Err(NoMemory) => None,
    }
}

/// Serves the connection of a case, if the trace fits the table and memory lasts.
fn serve<R: Wait>(rt: &R, alloc: Global, case: &Case) -> Option<Served<MemLink>> {
    let table = table(alloc)?;
    let mut trace = steady_trace(case.cycles);
    let link = link(alloc, case).ok()?;
    let listeners = listeners(alloc, case.counts).ok()?;
    if !fits(&table, &mut trace) {
        return None;
    }
    let ready = Ready::<Steady> { table, trace };
    in_lock_step(rt, alloc, ready, link, listeners)
}

/// Whether the lines are these.
pub fn are(lines: &[Listed<u8>], want: &[&str]) -> bool {
    lines.len() == want.len()
        && lines
            .iter()
            .zip(want.iter())
            .all(|(line, text)| line.items() == text.as_bytes())
}

/// Whether an event is a request of this text, or one turn where there is none.
fn is(event: &Event, text: &str) -> bool {
    match event {
        Event::Request(request) => request.items() == text.as_bytes(),
        Event::Turns(n) => *n == 1 && text.is_empty(),
    }
}

fn is_journal(journal: &[Event], want: &[&str]) -> bool {
    journal.len() == want.len()
        && journal
            .iter()
            .zip(want.iter())
            .all(|(event, text)| is(event, text))
}

#[test]
fn connections_are_served_in_lock_step(rt: HostRuntime) -> Result<(), Fail> {
    for (number, case) in CASES.iter().enumerate() {
        let Some(served) = serve(&rt, rt.alloc(), case) else {
            return Err("memory lasts".into());
        };
        assert!(rt;
            is_journal(&served.journal, case.journal),
            "journal of {number}"
        );
        assert!(rt; are(&served.sent, case.sent), "sent of {number}");
        assert!(rt; are(served.link.sent(), case.sent), "link of {number}");
        assert!(rt; are(&served.unsent, case.unsent), "unsent of {number}");
        assert!(rt;
            served.unapplied.is_empty() && served.end == case.end,
            "end of {number}"
        );
    }
    Ok(())
}
