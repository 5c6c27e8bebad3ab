//! What is left of one link, once both ends of each of its rings are in one thread: the half of a link that one client and many share.

ghost use Rattle.std.specs.Prelude.{◌≡◌, ◌≤◌, ◌<◌, ◌+◌, ◌++◌, List, ℕ, [], ◌∷◌, false, true, length, vec_capacity};
ghost use Rattle.rtrb.specs.Ring.{received, known_items, consumer_capacity, IsPair};
ghost use Rattle.link_edge.specs.Links.{Meaning, message_in};
ghost use Rattle.link_edge.specs.declared.answers.End.{End};
ghost use Rattle.link_pump.specs.Outlets.{Delivered, opened};
ghost use Rattle.link_pump.specs.Rings.{heard_in, finishes};
ghost use Rattle.link_pump.specs.Sides.{IsSide, Passes, end_in_two};
ghost use Rattle.link_pump.specs.Pumps.{Pumped};

use crate::cause::Cause;
use crate::outlet::Outlet;
use crate::pump::Pump;
use crate::rings::{FromLink, ToLink};
use link_edge::{End, Link};
use rtrb::{Consumer, Producer};
use text_core::Listed;

/// A link that is no longer pumped, with what was sent over it, and the messages that were read of it and not applied.
#[derive(Drop)]
pub struct Gathered<L> {
    pub outlet: Outlet<L>,
    pub unapplied: Vec<Listed<u8>>,
}

/// The one of at most one message.
fn only(texts: Vec<Listed<u8>>) -> Option<Listed<u8>>
    requires { length texts.items ≤ 1 }
    ensures { message_in result ≡ texts.items }
{
    let mut texts = texts;
    texts.pop()
}

/// Puts a message last, if there is one.
fn keep(text: Option<Listed<u8>>, unapplied: &mut Vec<Listed<u8>>)
    requires { length unapplied.old.items < vec_capacity unapplied.old }
    ensures items { unapplied.new.items ≡ unapplied.old.items ++ message_in text }
    ensures room { vec_capacity unapplied.old ≤ vec_capacity unapplied.new }
    ensures more { length unapplied.new.items ≤ length unapplied.old.items + 1 }
{
    match text {
        Some(text) => {
            let _ = unapplied.push(text);
        }
        None => {}
    }
}

/// Puts an item last, if it is a message.
fn keep_message(item: FromLink, unapplied: &mut Vec<Listed<u8>>)
    requires { length unapplied.old.items < vec_capacity unapplied.old }
    ensures items { unapplied.new.items ≡ unapplied.old.items ++ heard_in (item ∷ []) }
    ensures room { vec_capacity unapplied.old ≤ vec_capacity unapplied.new }
    ensures more { length unapplied.new.items ≤ length unapplied.old.items + 1 }
{
    match item {
        FromLink::Message(text) => {
            let _ = unapplied.push(text);
        }
        FromLink::LinkOver(_) => {}
    }
}

/// Puts the messages last that are left in the ring.
fn drain(messages: &mut Consumer<FromLink>, left: usize, unapplied: &mut Vec<Listed<u8>>)
    requires left { left ≡ length (known_items messages.old) }
    requires room { length unapplied.old.items + left ≤ vec_capacity unapplied.old }
    ensures items { unapplied.new.items ≡ unapplied.old.items ++ heard_in (known_items messages.old) }
    ensures room { vec_capacity unapplied.old ≤ vec_capacity unapplied.new }
    ensures more { length unapplied.new.items ≤ length unapplied.old.items + left }
{
    for _ in 0..left {
        keep_message(messages.pop_known(), unapplied);
    }
}

/// How a connection ended: as its session's side did, unless memory ran out at the link's.
pub fn end_in_two(end: End, over: Option<Cause>) -> End
    ensures { result ≡ end_in_two end over }
{
    match over {
        Some(Cause::NoMemory) => End::NoMemory,
        Some(Cause::Closed) | Some(Cause::Failed) | None => end,
    }
}

/// Puts the half of a link together with what the session's side left of its rings: the message that it popped and did not apply, and the
/// lines that it could not push, which are delivered last, as all others are. What is left in the ring of messages, and the message that
/// is held, go to those that are not applied. A link that its own side has shut, since its client has left, is sent nothing more.
pub fn gather_shut<L: Link>(
    back: Pump<L>,
    messages: Consumer<FromLink>,
    lines: Producer<ToLink>,
    first: Vec<Listed<u8>>,
    kept: Vec<Listed<u8>>,
    unapplied: Vec<Listed<u8>>,
) -> Gathered<L>
    requires messages { IsPair back.messages messages }
    requires lines { IsPair lines back.lines }
    requires over { finishes (received back.lines) ≡ true }
    requires places { consumer_capacity messages ≡ 64 }
    requires room { (unapplied.items ≡ []) × (66 ≤ vec_capacity unapplied) }
    requires few { length first.items ≤ 1 }

    // By what was asked of the messages that were popped, and the lines that were pushed.
    ensures passes { (start : Meaning) (asked pushed : List (List ℕ)) (end : End) → Pumped start (opened (L.meaning back.outlet.link)) back
        → IsSide messages lines asked first.items pushed end → Passes start
        (opened (L.meaning result.outlet.link)) asked result.unapplied.items result.outlet.sent.items result.outlet.unsent.items
        (end_in_two end result.outlet.over) }
    ensures told { (start : Meaning) (asked pushed : List (List ℕ)) (end : End) → Pumped start (opened (L.meaning back.outlet.link)) back
        → IsSide messages lines asked first.items pushed end
        → Delivered start (opened (L.meaning result.outlet.link)) result.outlet (pushed ++ kept.items) }
    ensures shut { (L.meaning result.outlet.link).shut ≡ (L.meaning back.outlet.link).shut }
{
    let Pump {
        mut outlet,
        messages: mut pushed,
        lines: mut popped,
        held,
        marked: _,
        begun: _,
        left: _,
        alloc,
    } = back;
    let mut messages = messages;
    let mut lines = lines;
    popped.slots_beside(&mut lines);
    let left = messages.slots_beside(&mut pushed);
    let mut unapplied = unapplied;
    keep(only(first), &mut unapplied);
    drain(&mut messages, left, &mut unapplied);
    keep(held, &mut unapplied);
    outlet.deliver_last(alloc, kept);
    Gathered { outlet, unapplied }
}

/// Puts the half of a link together as `gather_shut` does, where the link is not shut: lines that the session's side could not push are
/// delivered.
pub fn gather<L: Link>(
    back: Pump<L>,
    messages: Consumer<FromLink>,
    lines: Producer<ToLink>,
    first: Vec<Listed<u8>>,
    kept: Vec<Listed<u8>>,
    unapplied: Vec<Listed<u8>>,
) -> Gathered<L>
    requires usable { (L.meaning back.outlet.link).shut ≡ false }
    requires messages { IsPair back.messages messages }
    requires lines { IsPair lines back.lines }
    requires over { finishes (received back.lines) ≡ true }
    requires places { consumer_capacity messages ≡ 64 }
    requires room { (unapplied.items ≡ []) × (66 ≤ vec_capacity unapplied) }
    requires few { length first.items ≤ 1 }

    // By what was asked of the messages that were popped, and the lines that were pushed.
    ensures passes { (start : Meaning) (asked pushed : List (List ℕ)) (end : End) → Pumped start (L.meaning back.outlet.link) back
        → IsSide messages lines asked first.items pushed end → Passes start
        (L.meaning result.outlet.link) asked result.unapplied.items result.outlet.sent.items result.outlet.unsent.items
        (end_in_two end result.outlet.over) }
    ensures told { (start : Meaning) (asked pushed : List (List ℕ)) (end : End) → Pumped start (L.meaning back.outlet.link) back
        → IsSide messages lines asked first.items pushed end → Delivered start (L.meaning result.outlet.link) result.outlet (pushed ++ kept.items) }
{
    gather_shut(back, messages, lines, first, kept, unapplied)
}
