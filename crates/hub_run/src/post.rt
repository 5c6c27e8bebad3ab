//! What goes with a port: the thread of its link, and room for the messages that are not applied.

ghost use Rattle.std.specs.Prelude.{◌≡◌, true};
ghost use Rattle.rtrb.specs.Ring.{received, SameProducer, SameConsumer};
ghost use Rattle.link_pump.specs.Outlets.{opened};
ghost use Rattle.link_pump.specs.Rings.{finishes, client_left};
ghost use Rattle.link_pump.specs.Pumps.{Pumped};

use link_edge::Link;
use link_pump::{FromLink, Pump, ToLink};
use rtrb::{Consumer, Producer};
use std::snapshot::Snapshot;
use std::thread::{Promise, PromisedHandle};
use text_core::Listed;

/// What the thread of a link begins with: the promise is that it gives back what came of it, and that the link is shut where its client left.
#[derive(Drop)]
pub struct Begun<L> {
    pub(crate) link: Snapshot<L>,
    pub(crate) messages: Snapshot<Producer<FromLink>>,
    pub(crate) lines: Snapshot<Consumer<ToLink>>,
}

impl<L: Link> Promise<Pump<L>> for Begun<L> {
    ghost kept_by = { λ p back. Pumped (L.meaning p.link.value) (opened (L.meaning back.outlet.link)) back
        × (finishes (received back.lines) ≡ true)
        × ((L.meaning back.outlet.link).shut ≡ client_left (received back.lines))
        × SameProducer p.messages.value back.messages
        × SameConsumer p.lines.value back.lines };
}

/// The thread of a link, and room for the messages that are not applied.
#[derive(Drop)]
pub struct Post<C> {
    pub(crate) child: C,
    pub(crate) unapplied: Vec<Listed<u8>>,
}

/// What goes with the port of a link in a thread of its own.
pub type LinkPost<L> = Post<PromisedHandle<Pump<L>, Begun<L>>>;
