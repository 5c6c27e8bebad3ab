//! The thread of a link: it serves the link, and shuts it where its client has left.

ghost use Rattle.std.specs.Prelude.{◌≡◌, [], ◌∷◌, false, true};
ghost use Rattle.rtrb.specs.Ring.{sent, received, IsPair, SameProducer, SameConsumer};
ghost use Rattle.link_edge.specs.Links.{Meaning};
ghost use Rattle.link_pump.specs.declared.rings.ToLink.TheVariants.{SessionOver};
ghost use Rattle.link_pump.specs.Outlets.{opened};
ghost use Rattle.link_pump.specs.Rings.{finishes, client_left};
ghost use Rattle.link_pump.specs.Pumps.{Pumped};

use link_edge::Link;
use link_pump::{FromLink, Pump, ToLink};
use rtrb::{Consumer, Producer};
use std::alloc::Global;
use std::sync::Wait;

/// Shuts a link whose client has left.
fn close_left<L: Link>(back: &mut Pump<L>)
    requires usable { (L.meaning back.old.outlet.link).shut ≡ false }
    requires left { back.old.left ≡ client_left (received back.old.lines) }
    ensures keeps { (start : Meaning) → Pumped start (L.meaning back.old.outlet.link) back.old
        → Pumped start (opened (L.meaning back.new.outlet.link)) back.new }
    ensures shut { (L.meaning back.new.outlet.link).shut ≡ client_left (received back.new.lines) }
    ensures messages { back.new.messages ≡ back.old.messages }
    ensures lines { back.new.lines ≡ back.old.lines }
{
    if back.left {
        back.outlet.link.close();
    }
}

/// Serves a link until the session is over or its client has left, and shuts it where its client has left.
///
/// Where the session goes on, it waits, and may never return.
pub(crate) fn serve_link<R: Wait, L: Link>(
    rt: &R,
    alloc: Global,
    link: L,
    messages: Producer<FromLink>,
    lines: Consumer<ToLink>,
) -> Pump<L>
    requires usable { (L.meaning link).shut ≡ false }
    requires fresh { (sent messages ≡ []) × (received lines ≡ []) }
    ensures served { Pumped (L.meaning link) (opened (L.meaning result.outlet.link)) result }
    ensures over { finishes (received result.lines) ≡ true }
    ensures shut { (L.meaning result.outlet.link).shut ≡ client_left (received result.lines) }
    ensures messages { SameProducer messages result.messages }
    ensures lines { SameConsumer lines result.lines }
{
    let mut back = Pump::serve(rt, alloc, link, messages, lines);
    close_left(&mut back);
    back
}

/// The link of a side that was told at once that the session is over: nothing was read of it.
pub(crate) fn unread_link<L: Link>(back: Pump<L>, to_link: Producer<ToLink>) -> L
    requires pair { IsPair to_link back.lines }
    requires only { sent to_link ≡ SessionOver ∷ [] }
    requires shut { (L.meaning back.outlet.link).shut ≡ client_left (received back.lines) }
    ensures { (start : Meaning) → Pumped start (opened (L.meaning back.outlet.link)) back → L.meaning result ≡ start }
{
    let Pump {
        outlet,
        messages: _,
        mut lines,
        held: _,
        marked: _,
        begun: _,
        left: _,
        alloc: _,
    } = back;
    let mut to_link = to_link;
    lines.slots_beside(&mut to_link);
    outlet.link
}
