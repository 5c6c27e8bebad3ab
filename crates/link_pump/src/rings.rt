//! What goes through the two rings of a connection in two threads, and a push that waits.

ghost use Rattle.std.specs.Prelude.{◌≡◌, ◌++◌, [], ◌∷◌};
ghost use Rattle.rtrb.specs.Ring.{sent, SameProducer};

use crate::cause::Cause;
use rtrb::{Consumer, Producer, PushError, RingBuffer};
use std::alloc::Global;
use std::sync::Wait;
use std::thread;
use text_core::{Listed, NoMemory};

/// What the link's side pushes.
#[derive(Drop)]
pub enum FromLink {
    /// A message that was read.
    Message(Listed<u8>),
    /// The mark that the link is over, and why.
    LinkOver(Cause),
}

/// What the session's side pushes.
#[derive(Drop)]
pub enum ToLink {
    /// The mark that the session has begun.
    Begun,
    /// A line to be sent.
    Line(Listed<u8>),
    /// The mark that the session is over.
    SessionOver,
    /// The mark that the link's client has left, while the session goes on.
    ClientOver,
}

/// Pushes an item. While the ring is full, it lets other threads run and tries again.
pub fn push_waiting<R: Wait>(rt: &R, lines: &mut Producer<ToLink>, item: ToLink)
    ensures ring { SameProducer lines.old lines.new }
    ensures pushed { sent lines.new ≡ sent lines.old ++ item ∷ [] }
{
    let mut item = item;
    for _ in rt.forever() {
        match lines.push(item) {
            Ok(()) => return,
            Err(PushError::Full(back)) => item = back,
        }
        thread::yield_now();
    }
    unreachable!()
}

/// So many items fit in each ring.
const PLACES: usize = 64;

/// So many messages may be read and not applied: those in the ring, one that was popped, and one that is held.
const UNAPPLIED: usize = 66;

/// The ends of the two rings, and the room for the messages that are not applied.
#[derive(Drop)]
pub struct Rings {
    pub messages: Producer<FromLink>,
    pub from_link: Consumer<FromLink>,
    pub to_link: Producer<ToLink>,
    pub lines: Consumer<ToLink>,
    pub unapplied: Vec<Listed<u8>>,
}

impl Rings {
    ghost use Rattle.std.specs.Prelude.{IfOk};
    ghost use Rattle.link_pump.specs.Sides.{AreFresh};

    /// Two empty rings.
    pub fn new(alloc: Global) -> Result<Rings, NoMemory>
        ensures { IfOk result (λ r. AreFresh r.messages r.from_link r.to_link r.lines r.unapplied) }
    {
        let mut unapplied = Vec::new(alloc);
        unapplied.try_reserve(UNAPPLIED)?;
        let (messages, from_link) = RingBuffer::new(alloc, PLACES)?;
        let (to_link, lines) = RingBuffer::new(alloc, PLACES)?;
        Ok(Rings {
            messages,
            from_link,
            to_link,
            lines,
            unapplied,
        })
    }
}
