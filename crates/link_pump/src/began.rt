//! What the link's side begins with, and what is promised of it; and the link of a side that never began.

ghost use Rattle.std.specs.Prelude.{◌≡◌, ◌∷◌, [], false, true};
ghost use Rattle.rtrb.specs.Ring.{sent, received, IsPair, SameProducer, SameConsumer};
ghost use Rattle.link_edge.specs.Links.{Meaning};
ghost use Rattle.link_pump.specs.declared.rings.ToLink.TheVariants.{SessionOver};
ghost use Rattle.link_pump.specs.Rings.{finishes};
ghost use Rattle.link_pump.specs.Pumps.{Pumped};

use crate::pump::Pump;
use crate::rings::{FromLink, ToLink};
use link_edge::Link;
use rtrb::{Consumer, Producer};
use std::snapshot::Snapshot;
use std::thread::Promise;

/// What the link's side begins with: the promise is that it gives back what came of it.
#[derive(Drop)]
pub struct Began<L> {
    pub link: Snapshot<L>,
    pub messages: Snapshot<Producer<FromLink>>,
    pub lines: Snapshot<Consumer<ToLink>>,
}

impl<L: Link> Promise<Pump<L>> for Began<L> {
    ghost kept_by = { λ p back. Pumped (L.meaning p.link.value) (L.meaning back.outlet.link) back
        × (finishes (received back.lines) ≡ true)
        × ((L.meaning back.outlet.link).shut ≡ false)
        × SameProducer p.messages.value back.messages
        × SameConsumer p.lines.value back.lines };
}

/// The link of a side that was told at once that the session is over: nothing was read of it.
pub fn unread<L: Link>(back: Pump<L>, to_link: Producer<ToLink>) -> L
    requires pair { IsPair to_link back.lines }
    requires only { sent to_link ≡ SessionOver ∷ [] }
    ensures { (start : Meaning) → Pumped start (L.meaning back.outlet.link) back → L.meaning result ≡ start }
{
    let Pump {
        outlet,
        messages: _,
        mut lines,
        held: _,
        marked: _,
        begun: _,
        left: _,
        alloc: _,
    } = back;
    let mut to_link = to_link;
    lines.slots_beside(&mut to_link);
    outlet.link
}
