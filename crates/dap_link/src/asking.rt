//! Requests of a session, as a conversation gives them: with no listener, and each answer waited for.

ghost use Rattle.std.specs.Prelude.{◌≡◌, None, IfOk, OnOk};
ghost use Rattle.machine_core.specs.Reading.{Reader, IsReader};
ghost use Rattle.machine_core.specs.Machine.{Machine, threads_of};
ghost use Rattle.machine_core.specs.Journal.{notices_of, until_idle};
ghost use Rattle.dap_link.specs.Conversation.{asked_so, failed_or, first_id, lines_happening, ran_to, refusal_name, run_by, unheard, unless_refused};
ghost use Rattle.dap_link.specs.State.{alone, led_with, world_in};

use dap_text::{Happening, Payload, Reason};
use dbg_core::{Asked, Body, Cmd, Listeners, Request, Session, Turned};
use req_json::body_refusal;
use std::alloc::Global;
use text_core::{NoMemory, Text};
use trace_core::Trace;

/// Asks a session, and tells what it answers.
pub(crate) fn ask<T: Trace>(
    alloc: Global,
    session: &mut Session<T>,
    cmd: Cmd,
) -> Result<Body, NoMemory>
    ensures table { session.new.table ≡ session.old.table }
    ensures samples { T.samples session.new.trace ≡ T.samples session.old.trace }
    ensures told { IfOk result (λ body. (read : Reader) → IsReader read → (alone session.new, body)
        ≡ asked_so read (world_in session.old) (alone session.old) cmd) }
{
    let mut listeners = Listeners::new(alloc, Vec::new(alloc))?;
    let asked = Asked::Good(Request { id: None, cmd });
    let reply = session.request(&asked, &mut listeners)?;
    Ok(reply.body)
}

/// Asks a session, whatever it answers.
pub(crate) fn tell<T: Trace>(
    alloc: Global,
    session: &mut Session<T>,
    cmd: Cmd,
) -> Result<(), NoMemory>
    ensures table { session.new.table ≡ session.old.table }
    ensures samples { T.samples session.new.trace ≡ T.samples session.old.trace }
    ensures left { OnOk result ((read : Reader) → IsReader read
        → alone session.new ≡ (asked_so read (world_in session.old) (alone session.old) cmd).0) }
{
    ask(alloc, session, cmd)?;
    Ok(())
}

/// Makes turns until a session is idle, and tells what the last of them did.
fn settle<T: Trace>(alloc: Global, session: &mut Session<T>) -> Result<Turned, NoMemory>
    ensures table { session.new.table ≡ session.old.table }
    ensures samples { T.samples session.new.trace ≡ T.samples session.old.trace }
    ensures after { OnOk result (alone session.new ≡ unheard (until_idle (world_in session.old) (alone session.old)).after) }
    ensures lines { IfOk result (λ turned. (until_idle (world_in session.old) (alone session.old)).lines
        ≡ notices_of (world_in session.old) (until_idle (world_in session.old) (alone session.old)).after turned) }
{
    let mut listeners = Listeners::new(alloc, Vec::new(alloc))?;
    Ok(session.settle(&mut listeners))
}

/// The number of the first instance of a list, from 1; 0 of none.
fn first_id(threads: &[u32]) -> u64
    ensures { result ≡ first_id threads.now }
{
    match threads.first() {
        Some(i) => u64::from(*i) + 1,
        None => 0,
    }
}

/// What is told of where a session came to by such a turn.
fn happening_of<T: Trace>(
    session: &mut Session<T>,
    turned: Turned,
    reason: Reason,
) -> Result<Option<Happening>, NoMemory>
    ensures table { session.new.table ≡ session.old.table }
    ensures samples { T.samples session.new.trace ≡ T.samples session.old.trace }
    ensures state { alone session.new ≡ alone session.old }
    ensures happened { IfOk result (λ happened. (m : Machine) → happened
        ≡ lines_happening reason (first_id (threads_of (world_in session.old) session.old.place)) (notices_of (world_in session.old) m turned)) }
{
    match turned {
        Turned::Stopped(_) => {
            let threads = session.threads()?;
            let thread = first_id(&threads);
            Ok(Some(Happening::Stopped { reason, thread }))
        }
        Turned::AtEnd => Ok(Some(Happening::Ended)),
        Turned::AtStart => Ok(Some(Happening::Started)),
        Turned::Idle | Turned::Moved => Ok(None),
    }
}

/// Makes turns until a session is idle, and tells where it came to.
fn run_out<T: Trace>(
    alloc: Global,
    session: &mut Session<T>,
    reason: Reason,
) -> Result<Option<Happening>, NoMemory>
    ensures table { session.new.table ≡ session.old.table }
    ensures samples { T.samples session.new.trace ≡ T.samples session.old.trace }
    ensures led { IfOk result (λ happened. (told : Payload) → led_with (alone session.new) told happened
        ≡ ran_to (world_in session.old) reason told (until_idle (world_in session.old) (alone session.old))) }
{
    let turned = settle(alloc, session)?;
    let happened = happening_of(session, turned, reason)?;
    Ok(happened)
}

/// The name of a refusal; None of what was granted.
pub(crate) fn refusal_name(alloc: Global, body: &Body) -> Result<Option<Text>, NoMemory>
    ensures { IfOk result (λ name. name ≡ refusal_name body.now) }
{
    match body_refusal(body) {
        Some((_, name)) => Ok(Some(Text::new(alloc, name.as_bytes())?)),
        None => Ok(None),
    }
}

/// Where a run came to: the name of the refusal, if it was refused, or what happened.
#[derive(Drop)]
pub(crate) struct Went {
    pub(crate) failed: Option<Text>,
    pub(crate) happened: Option<Happening>,
}

/// Asks a session to run, and waits until it is idle.
pub(crate) fn run<T: Trace>(
    alloc: Global,
    session: &mut Session<T>,
    cmd: Cmd,
    reason: Reason,
) -> Result<Went, NoMemory>
    ensures table { session.new.table ≡ session.old.table }
    ensures samples { T.samples session.new.trace ≡ T.samples session.old.trace }
    ensures led { IfOk result (λ went. (read : Reader) → IsReader read → (told : Payload)
        → led_with (alone session.new) (failed_or told went.failed) went.happened
        ≡ run_by (world_in session.old) reason told (asked_so read (world_in session.old) (alone session.old) cmd)) }
{
    let body = ask(alloc, session, cmd)?;
    match refusal_name(alloc, &body)? {
        Some(name) => {
            Ok(Went {
                failed: Some(name),
                happened: None,
            })
        }
        None => {
            let happened = run_out(alloc, session, reason)?;
            Ok(Went {
                failed: None,
                happened,
            })
        }
    }
}

/// What is told of an answer: nothing but the name of a refusal.
pub(crate) fn unless_refused(alloc: Global, body: &Body) -> Result<Payload, NoMemory>
    ensures { IfOk result (λ told. told ≡ unless_refused Payload.Empty body.now) }
{
    match refusal_name(alloc, body)? {
        Some(name) => Ok(Payload::Failed { name }),
        None => Ok(Payload::Empty),
    }
}

/// What is told of a command that fails by itself.
pub(crate) fn failed(alloc: Global, name: &str) -> Result<Payload, NoMemory>
    ensures { IfOk result (λ told. told ≡ Payload.Failed name.now) }
{
    let name = Text::new(alloc, name.as_bytes())?;
    Ok(Payload::Failed { name })
}

/// What is told, and what happened.
#[derive(Drop)]
pub(crate) struct Reacted {
    pub(crate) told: Payload,
    pub(crate) happened: Option<Happening>,
}

/// What is told where nothing happened.
pub(crate) fn quiet(told: Payload) -> Reacted
    ensures { result ≡ record { told = told; happened = None } }
{
    Reacted {
        told,
        happened: None,
    }
}
