//! What is told of turns and of listeners, over a link: each notice as a line of its own, or none, where there was no memory for it.

ghost use Rattle.std.specs.Prelude.{◌≡◌, ◌++◌, List, ℕ, false, IfOk, map};
ghost use Rattle.link_edge.specs.Links.{Meaning};
ghost use Rattle.machine_core.specs.Journal.{Line, Noticed, told_lines};
ghost use Rattle.link_pump.specs.Outlets.{Delivered, Lasts};
ghost use Rattle.req_json.specs.Texts.{texts_of};

use dbg_core::Notice;
use link_edge::Link;
use link_pump::Outlet;
use req_json::notice_text;
use std::alloc::Global;
use text_core::NoMemory;

/// Tells what is told of a turn, if there is something, and was memory for it.
pub(crate) fn note<L: Link>(
    outlet: &mut Outlet<L>,
    alloc: Global,
    notice: Result<Option<Notice>, NoMemory>,
)
    requires usable { (L.meaning outlet.old.link).shut ≡ false }
    ensures keeps { (start : Meaning) (made : List (List ℕ)) (lines : List Line) → IfOk notice (λ notice. told_lines notice ≡ lines)
        → Delivered start (L.meaning outlet.old.link) outlet.old made
        → Delivered start (L.meaning outlet.new.link) outlet.new (made ++ texts_of lines) }
    ensures polls { (L.meaning outlet.new.link).polls ≡ (L.meaning outlet.old.link).polls }
    ensures received { (L.meaning outlet.new.link).received ≡ (L.meaning outlet.old.link).received }
    ensures shut { (L.meaning outlet.new.link).shut ≡ false }
    ensures over { Lasts outlet.old.over outlet.new.over }
{
    match notice {
        Ok(Some(notice)) => outlet.tell(alloc, notice_text(alloc, &notice)),
        Ok(None) => {}
        Err(NoMemory) => outlet.lose(),
    }
}

/// Tells notices, in order.
fn note_all<L: Link>(outlet: &mut Outlet<L>, alloc: Global, notices: &[Notice])
    requires usable { (L.meaning outlet.old.link).shut ≡ false }
    ensures keeps { (start : Meaning) (made : List (List ℕ)) → Delivered start (L.meaning outlet.old.link) outlet.old made
        → Delivered start (L.meaning outlet.new.link) outlet.new (made ++ texts_of (map (λ n. Noticed n) notices.now)) }
    ensures polls { (L.meaning outlet.new.link).polls ≡ (L.meaning outlet.old.link).polls }
    ensures received { (L.meaning outlet.new.link).received ≡ (L.meaning outlet.old.link).received }
    ensures over { Lasts outlet.old.over outlet.new.over }
{
    for notice in notices {
        outlet.tell(alloc, notice_text(alloc, notice));
    }
}

/// Tells the last notices, if there was memory for them.
pub(crate) fn close<L: Link>(
    outlet: &mut Outlet<L>,
    alloc: Global,
    notices: Result<Vec<Notice>, NoMemory>,
)
    requires usable { (L.meaning outlet.old.link).shut ≡ false }
    ensures keeps { (start : Meaning) (made : List (List ℕ)) (lines : List Line)
        → IfOk notices (λ notices. map (λ n. Noticed n) notices.items ≡ lines) → Delivered start (L.meaning outlet.old.link) outlet.old made
        → Delivered start (L.meaning outlet.new.link) outlet.new (made ++ texts_of lines) }
    ensures polls { (L.meaning outlet.new.link).polls ≡ (L.meaning outlet.old.link).polls }
    ensures received { (L.meaning outlet.new.link).received ≡ (L.meaning outlet.old.link).received }
    ensures over { Lasts outlet.old.over outlet.new.over }
{
    match notices {
        Ok(notices) => note_all(outlet, alloc, &notices),
        Err(NoMemory) => outlet.lose(),
    }
}
