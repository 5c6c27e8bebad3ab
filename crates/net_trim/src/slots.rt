//! The slots of a table with their rows.

ghost use Rattle.std.specs.Prelude.{◌≡◌, ◌<◌, ◌^◌, IfOk, OnOk, All, length};
ghost use Rattle.net_trim.specs.Made.{AreMade, front_of, AreFilled, CanBeMade};

use crate::found::row_of;
use bv_core::NodeId;
use lower_core::FullRow;
use net_core::Net;
use std::alloc::Global;
use symtab::{Row, Slot};
use text_core::{Listed, NoMemory};

/// The rows of a slot, which stand at the front of these.
fn slot_rows(
    alloc: Global,
    net: &Net,
    ids: &[Option<NodeId>],
    rows: &[FullRow],
    slot: u32,
) -> Result<Vec<Row>, NoMemory>
    requires long { length ids.now ≡ length net.now.nodes }
    requires can { All (CanBeMade net.now.nodes ids.now) rows.now }
    ensures { IfOk result (λ made. AreMade net.now.nodes ids.now (front_of slot rows.now) made.items) }
{
    let mut made = Vec::new(alloc);
    for row in rows {
        if row.slot != slot {
            return Ok(made);
        }
        made.push(row_of(alloc, net, ids, row)?)?;
    }
    Ok(made)
}

/// Gives slots their rows, which stand in the order of the slots.
pub(crate) fn fill_slots(
    alloc: Global,
    net: &Net,
    ids: &[Option<NodeId>],
    rows: &[FullRow],
    slots: &mut [Slot],
) -> Result<(), NoMemory>
    requires long { length ids.now ≡ length net.now.nodes }
    requires can { All (CanBeMade net.now.nodes ids.now) rows.now }
    requires few { length slots.old < 2 ^ 32 }
    ensures { OnOk result (AreFilled net.now.nodes ids.now 0 rows.now slots.old slots.new) }
{
    let mut at = 0;
    for k in 0..slots.len() {
        let made = slot_rows(alloc, net, ids, &rows[at..], k as u32)?;
        at += made.len();
        slots[k].rows = Listed::new(made);
    }
    Ok(())
}
