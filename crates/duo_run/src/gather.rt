//! The two sides of a connection together: the half of its link, and what was done with the session.

ghost use Rattle.std.specs.Prelude.{◌≡◌, ◌≤◌, [], false, true, vec_capacity};
ghost use Rattle.rtrb.specs.Ring.{received, consumer_capacity, IsPair};
ghost use Rattle.world_core.specs.World.{World};
ghost use Rattle.machine_core.specs.Reading.{Reader};
ghost use Rattle.machine_core.specs.Machine.{Machine};
ghost use Rattle.link_edge.specs.Links.{Meaning};
ghost use Rattle.link_pump.specs.Rings.{finishes};
ghost use Rattle.link_pump.specs.Sides.{IsSide};
ghost use Rattle.link_pump.specs.Pumps.{Pumped};
ghost use Rattle.duo_run.specs.Connections.{Carries, Applies};
ghost use Rattle.duo_run.specs.Journals.{requests_of};

use crate::served::Served;
use crate::side::Side;
use link_edge::Link;
use link_pump::{Gathered, Outlet, Pump, end_in_two};
use text_core::Listed;

/// Puts the two sides together. The lines that the session's side could not push are delivered last, as all others are. What is left in
/// the ring of messages, and the message that is held, go to those that are not applied.
pub(crate) fn gather<L: Link>(back: Pump<L>, side: Side, unapplied: Vec<Listed<u8>>) -> Served<L>
    requires usable { (L.meaning back.outlet.link).shut ≡ false }
    requires messages { IsPair back.messages side.messages }
    requires lines { IsPair side.lines back.lines }
    requires over { finishes (received back.lines) ≡ true }
    requires places { consumer_capacity side.messages ≡ 64 }
    requires room { (unapplied.items ≡ []) × (66 ≤ vec_capacity unapplied) }
    requires side { IsSide side.messages side.lines (requests_of side.journal.items) side.unapplied.items side.pushed.items side.end }
    ensures carried { (start : Meaning) → Pumped start (L.meaning back.outlet.link) back
        → Carries start (L.meaning result.link) result.journal.items result.unapplied.items result.sent.items result.unsent.items result.end }
    ensures applied { (start : Meaning) → Pumped start (L.meaning back.outlet.link) back → (read : Reader) (w : World) (m : Machine)
        → Applies read w m side.journal.items side.pushed.items side.kept.items side.end
        → Applies read w m result.journal.items result.sent.items result.unsent.items result.end }
{
    let Side {
        messages,
        lines,
        journal,
        unapplied: first,
        pushed: _,
        kept,
        end,
    } = side;
    let Gathered { outlet, unapplied } = link_pump::gather(
        back, messages, lines, first, kept, unapplied,
    );
    let Outlet {
        link,
        sent,
        unsent,
        over,
    } = outlet;
    Served {
        link,
        journal,
        unapplied,
        sent,
        unsent,
        end: end_in_two(end, over),
    }
}
