//! The table of commands: which requests of the session each gives, and what is told of what they lead to.

ghost use Rattle.std.specs.Prelude.{◌≡◌, false, IfOk};
ghost use Rattle.machine_core.specs.Reading.{Reader, IsReader};
ghost use Rattle.dap_link.specs.Conversation.{asked_so, failed_or, granted_by, led_by, run_by, run_payload};
ghost use Rattle.dap_link.specs.State.{alone, world_in};
ghost use Rattle.dap_link.specs.Reactions.{led_of};

use crate::asking::{Reacted, Went, ask, quiet, run, unless_refused};
use crate::looking::{evaluate, fail, scopes, stack, threads, variables};
use dap_text::{EditorCmd, Happening, Payload, Reason};
use dbg_core::{Cmd, Session};
use std::alloc::Global;
use text_core::{NoMemory, Text};
use trace_core::Trace;

/// What is told of a run that was granted.
fn run_payload(continued: bool) -> Payload
    ensures { result ≡ run_payload continued }
{
    if continued {
        Payload::Continued
    } else {
        Payload::Empty
    }
}

/// What is told of a run, which was refused by this name, if by one.
fn run_told(continued: bool, failed: Option<Text>) -> Payload
    ensures { result ≡ failed_or (run_payload continued) failed }
{
    match failed {
        Some(name) => Payload::Failed { name },
        None => run_payload(continued),
    }
}

/// What is told of where a run came to.
fn reacted(continued: bool, went: Went) -> Reacted
    ensures told { result.told ≡ failed_or (run_payload continued) went.failed }
    ensures happened { result.happened ≡ went.happened }
{
    let Went { failed, happened } = went;
    Reacted {
        told: run_told(continued, failed),
        happened,
    }
}

/// Asks a session to run, and waits until it is idle. Some commands are told that all threads went on.
fn go<T: Trace>(
    alloc: Global,
    session: &mut Session<T>,
    cmd: Cmd,
    reason: Reason,
    continued: bool,
) -> Result<Reacted, NoMemory>
    ensures table { session.new.table ≡ session.old.table }
    ensures samples { T.samples session.new.trace ≡ T.samples session.old.trace }
    ensures led { IfOk result (λ reacted. (read : Reader) → IsReader read → led_of (alone session.new) reacted
        ≡ run_by (world_in session.old) reason (run_payload continued) (asked_so read (world_in session.old) (alone session.old) cmd)) }
{
    let went = run(alloc, session, cmd, reason)?;
    Ok(reacted(continued, went))
}

/// Asks a session for a step, and waits until it is idle.
fn step<T: Trace>(alloc: Global, session: &mut Session<T>, cmd: Cmd) -> Result<Reacted, NoMemory>
    ensures table { session.new.table ≡ session.old.table }
    ensures samples { T.samples session.new.trace ≡ T.samples session.old.trace }
    ensures led { IfOk result (λ reacted. (read : Reader) → IsReader read → led_of (alone session.new) reacted
        ≡ run_by (world_in session.old) Reason.Step (run_payload false) (asked_so read (world_in session.old) (alone session.old) cmd)) }
{
    go(alloc, session, cmd, Reason::Step, false)
}

/// Asks a session, and tells no more than the name of a refusal.
fn grant<T: Trace>(alloc: Global, session: &mut Session<T>, cmd: Cmd) -> Result<Reacted, NoMemory>
    ensures table { session.new.table ≡ session.old.table }
    ensures samples { T.samples session.new.trace ≡ T.samples session.old.trace }
    ensures led { IfOk result (λ reacted. (read : Reader) → IsReader read → led_of (alone session.new) reacted
        ≡ granted_by Payload.Empty (asked_so read (world_in session.old) (alone session.old) cmd)) }
{
    let body = ask(alloc, session, cmd)?;
    let told = unless_refused(alloc, &body)?;
    Ok(quiet(told))
}

/// What a command leads to, over a session, with the names of its files by number; but for the setting of breakpoints.
pub(crate) fn lead<T: Trace>(
    alloc: Global,
    session: &mut Session<T>,
    names: &[Text],
    cmd: &EditorCmd,
) -> Result<Reacted, NoMemory>
    ensures table { session.new.table ≡ session.old.table }
    ensures samples { T.samples session.new.trace ≡ T.samples session.old.trace }
    ensures led { IfOk result (λ reacted. (read : Reader) → IsReader read → led_of (alone session.new) reacted
        ≡ led_by read (world_in session.old) names.now (alone session.old) cmd.now) }
{
    match cmd {
        EditorCmd::Initialize => Ok(Reacted {
            told: Payload::Abilities,
            happened: Some(Happening::Initialized),
        }),
        EditorCmd::Launch | EditorCmd::SetBreakpoints { .. } => Ok(quiet(Payload::Empty)),
        EditorCmd::ConfigurationDone => {
            go(alloc, session, Cmd::Continue, Reason::Breakpoint, false)
        }
        EditorCmd::Continue => go(alloc, session, Cmd::Continue, Reason::Breakpoint, true),
        EditorCmd::ReverseContinue => {
            go(alloc, session, Cmd::Reverse, Reason::Breakpoint, false)
        }
        EditorCmd::Step => step(alloc, session, Cmd::Step { instance: None }),
        EditorCmd::StepBack => step(alloc, session, Cmd::Back { instance: None }),
        EditorCmd::Pause => grant(alloc, session, Cmd::Pause),
        EditorCmd::Threads => threads(alloc, session),
        EditorCmd::StackTrace { thread } => stack(alloc, session, names, *thread),
        EditorCmd::Scopes { frame } => scopes(alloc, session.table(), *frame),
        EditorCmd::Variables { reference } => variables(alloc, session, *reference),
        EditorCmd::Evaluate { expression, frame } => evaluate(alloc, session, expression, *frame),
        EditorCmd::Disconnect => grant(alloc, session, Cmd::Bye),
        EditorCmd::BadShape => fail(alloc, "BadShape"),
        EditorCmd::UnknownCmd => fail(alloc, "UnknownCmd"),
    }
}
