//! Two clients on one session in lock step, over a small table and a trace in which its one node is always 1.

ghost use Rattle.std.specs.Prelude.{◌≡◌, false, length, IfOk};
ghost use Rattle.trace_world.specs.Fitting.{FitsTable};

use crate::steady::steady_trace;
use dbg_core::{Listeners, Session};
use hub_core::{ClientEnd, Hub, HubEnd, HubEvent, HubServed, serve_hub_lockstep};
use link_edge::{End, Link, MemLink, OpenGate, Step};
use listen::Listener;
use std::alloc::Global;
use std::sync::Wait;
use std::test::Fail;
use symtab::Table;
use symtab_json::read_table;
use text_core::{Listed, NoMemory};
use trace_core::Trace;
use trace_fits::fits;

/// A symbol file of five statements; the third is on line 10.
static SYMBOLS: &str = "{\"instances\":[[\"A\",0]],\"nodes\":[[\"en\",1]],\"slots\":[\
     {\"gens\":[],\"line\":8,\"names\":[],\"rows\":[{\"cells\":[],\"on\":\"1'h1\"}],\"variant\":0},\
     {\"gens\":[],\"line\":9,\"names\":[],\"rows\":[{\"cells\":[],\"on\":\"1'h1\"}],\"variant\":0},\
     {\"gens\":[],\"line\":10,\"names\":[],\"rows\":[{\"cells\":[],\"on\":0}],\"variant\":0},\
     {\"gens\":[],\"line\":12,\"names\":[],\"rows\":[{\"cells\":[],\"on\":\"1'h1\"}],\"variant\":0},\
     {\"gens\":[],\"line\":14,\"names\":[],\"rows\":[{\"cells\":[],\"on\":\"1'h1\"}],\"variant\":0}],\
     \"top\":\"A\",\"variants\":[[\"A\",[]]],\"version\":1}";

const BREAK: &str = "{\"cmd\":\"break\",\"line\":10}";

const CONTINUE: &str = "{\"cmd\":\"continue\"}";

const STATUS: &str = "{\"cmd\":\"status\"}";

const BYE: &str = "{\"cmd\":\"bye\"}";

const BROKE: &str = "{\"bp\":1,\"ok\":true,\"seq\":1,\"slots\":[2]}";

const WENT_ON: &str = "{\"ok\":true,\"seq\":2}";

const STOPPED: &str =
    "{\"cycle\":0,\"gens\":[],\"line\":10,\"notice\":\"stopped\",\"slot\":2,\"threads\":[\"A\"]}";

const STANDS: &str =
    "{\"at\":{\"cycle\":0,\"slot\":2},\"bps\":[1],\"listeners\":[],\"mode\":\"idle\",\"ok\":true,\"seq\":4}";

/// The end of a client's stream, in a script.
const CLOSE: &str = "close";

/// What a link gives in a script where nothing has come.
const NOTHING: &str = "";

/// An event of a journal, by a client's number and a text: a request, a leave where there is no text, or one turn at client 2.
type Want = (u32, &'static str);

/// Two clients: what their links give, and what they leave: the journal, what was sent to each, and the end of each.
struct Case {
    scripts: [&'static [&'static str]; 2],
    journal: &'static [Want],
    sent: [&'static [&'static str]; 2],
    ends: [End; 2],
}

static CASES: [Case; 2] = [
    Case {
        scripts: [
            &[BREAK, CONTINUE, NOTHING, BYE],
            &[NOTHING, NOTHING, NOTHING, STATUS, BYE],
        ],
        journal: &[
            (0, BREAK),
            (0, CONTINUE),
            (2, ""),
            (0, BYE),
            (0, ""),
            (1, STATUS),
            (1, BYE),
            (1, ""),
        ],
        sent: [
            &[BROKE, WENT_ON, STOPPED, "{\"ok\":true,\"seq\":3}"],
            &[STOPPED, STANDS, "{\"ok\":true,\"seq\":5}"],
        ],
        ends: [End::Bye, End::Bye],
    },
    Case {
        scripts: [&[BREAK, CONTINUE, NOTHING, BYE], &[CLOSE]],
        journal: &[
            (0, BREAK),
            (1, ""),
            (0, CONTINUE),
            (2, ""),
            (0, BYE),
            (0, ""),
        ],
        sent: [&[BROKE, WENT_ON, STOPPED, "{\"ok\":true,\"seq\":3}"], &[]],
        ends: [End::Bye, End::Closed],
    },
];

fn step(alloc: Global, text: &str) -> Result<Step, NoMemory> {
    if text.is_empty() {
        return Ok(Step::Nothing);
    }
    if text == CLOSE {
        return Ok(Step::Close);
    }
    Ok(Step::Message(Listed::new(text.as_bytes().to_vec(alloc)?)))
}

fn link(alloc: Global, texts: &[&str]) -> Result<MemLink, NoMemory>
    ensures { IfOk result (λ link. link.shut ≡ false) }
{
    let mut script = Vec::new(alloc);
    for text in texts {
        let step = step(alloc, text)?;
        script.push(step)?;
    }
    MemLink::new(alloc, script, Vec::new(alloc))
}

/// The table of the symbol file, if memory lasts.
fn table(alloc: Global) -> Option<Table> {
    read_table(alloc, SYMBOLS.as_bytes()).ok()
}

/// Serves two links in lock step over a hub, if memory lasts.
fn serve_links<R: Wait, T: Trace + Drop>(
    rt: &R,
    alloc: Global,
    hub: Hub<T>,
    first: MemLink,
    second: MemLink,
) -> Result<HubServed<MemLink>, NoMemory>
    requires two { length hub.here.items ≡ 2 }
    requires usable { (first.shut ≡ false) × (second.shut ≡ false) }
{
    let mut links = Vec::new(alloc);
    links.push(first)?;
    links.push(second)?;
    Ok(serve_hub_lockstep(rt, alloc, hub, links, OpenGate))
}

/// Serves two links from a new session without listeners, if memory lasts.
fn serve_two<R: Wait, T: Trace + Drop>(
    rt: &R,
    alloc: Global,
    table: Table,
    trace: T,
    first: MemLink,
    second: MemLink,
) -> Result<HubServed<MemLink>, NoMemory>
    requires fits { FitsTable table (T.samples trace) }
    requires usable { (first.shut ≡ false) × (second.shut ≡ false) }
{
    let none: Vec<Box<dyn Listener>> = Vec::new(alloc);
    let listeners = Listeners::new(alloc, none)?;
    let session = Session::new(alloc, table, trace);
    let hub = Hub::<T>::new(alloc, session, listeners, 2)?;
    serve_links(rt, alloc, hub, first, second)
}

/// Serves the clients of a case, if the trace fits the table and memory lasts.
fn serve<R: Wait>(rt: &R, alloc: Global, case: &Case) -> Option<HubServed<MemLink>> {
    let table = table(alloc)?;
    let mut trace = steady_trace(3);
    let first = link(alloc, case.scripts[0]).ok()?;
    let second = link(alloc, case.scripts[1]).ok()?;
    if !fits(&table, &mut trace) {
        return None;
    }
    serve_two(rt, alloc, table, trace, first, second).ok()
}

/// Whether the lines are these.
fn are(lines: &[Listed<u8>], want: &[&str]) -> bool {
    lines.len() == want.len()
        && lines
            .iter()
            .zip(want.iter())
            .all(|(line, text)| line.items() == text.as_bytes())
}

/// Whether an event is this one.
fn is(event: &HubEvent, want: &Want) -> bool {
    match event {
        HubEvent::Ask(client, text) => *client == want.0 && text.items() == want.1.as_bytes(),
        HubEvent::Left(client) => *client == want.0 && want.1.is_empty(),
        HubEvent::Turns(n) => *n == 1 && want.0 == 2,
    }
}

fn is_journal(journal: &[HubEvent], want: &[Want]) -> bool {
    journal.len() == want.len()
        && journal
            .iter()
            .zip(want.iter())
            .all(|(event, want)| is(event, want))
}

/// Whether a client was told these lines, nothing was left over, and it ended so.
fn is_end(end: &ClientEnd, sent: &[&str], how: End) -> bool {
    are(&end.sent, sent) && end.unsent.is_empty() && end.unapplied.is_empty() && end.end == how
}

#[test]
fn two_clients_are_served_in_lock_step(rt: HostRuntime) -> Result<(), Fail> {
    for (number, case) in CASES.iter().enumerate() {
        let Some(served) = serve(&rt, rt.alloc(), case) else {
            return Err("memory lasts".into());
        };
        assert!(rt;
            is_journal(&served.journal, case.journal),
            "journal of {number}"
        );
        assert!(rt;
            served.clients.len() == 2 && served.links.len() == 2,
            "clients of {number}"
        );
        for k in 0..2 {
            assert!(rt;
                is_end(&served.clients[k], case.sent[k], case.ends[k]),
                "client {k} of {number}"
            );
            assert!(rt;
                are(served.links[k].sent(), case.sent[k]) && served.links[k].shut(),
                "link {k} of {number}"
            );
        }
        assert!(rt;
            served.closing.is_empty() && served.end == HubEnd::AllLeft,
            "end of {number}"
        );
    }
    Ok(())
}
