//! Trimming as a whole: what outputs, enables and kept names need is walked, and the table is told over what it left.

ghost use Rattle.std.specs.Prelude.{◌≡◌, ◌<◌, ◌^◌, IfOk, All, length};
ghost use Rattle.net_trim.specs.Made.{CanBeMade};
ghost use Rattle.net_trim.specs.Whole.{ArePartsMade, IsOfDesign, IsCompiled};

use crate::naming::node_names;
use crate::roots::roots_of;
use crate::slots::fill_slots;
use bv_core::NodeId;
use lower_core::{FullRow, Lowered};
use net_core::Net;
use std::alloc::Global;
use symtab::{Table, TableEnd, TableParts};
use text_core::{Listed, NoMemory};
use walk_net::{Walked, keep_nodes};

/// The parts of a table: those of a shape, with the nodes that were kept and with the rows of its slots.
fn parts_of(
    alloc: Global,
    net: &Net,
    kept: &Net,
    ids: &[Option<NodeId>],
    rows: &[FullRow],
    shape: TableParts,
) -> Result<TableParts, NoMemory>
    requires long { length ids.now ≡ length net.now.nodes }
    requires can { All (CanBeMade net.now.nodes ids.now) rows.now }
    requires few { length shape.slots < 2 ^ 32 }
    ensures made { IfOk result (λ parts. ArePartsMade net.now.nodes ids.now rows.now kept.now.nodes shape parts) }
    ensures few { length kept.now.nodes < 2 ^ 64 }
{
    let nodes = node_names(alloc, kept)?;
    let mut slots = shape.slots.into_items();
    fill_slots(alloc, net, ids, rows, &mut slots)?;
    Ok(TableParts {
        top: shape.top,
        nodes: Listed::new(nodes),
        variants: shape.variants,
        instances: shape.instances,
        slots: Listed::new(slots),
    })
}

/// From a lowered design to a compiled one: the net of the trees that its outputs, its enables and, where names are kept, its
/// names need, numbered as they are walked; and the symbol table, which finds each name there, or tells that it is unset or that
/// nothing was kept of it. Fails only where memory runs out.
pub fn trim(alloc: Global, lowered: Lowered) -> Result<(Net, Table), NoMemory>
    requires { IsOfDesign lowered }
    ensures { IfOk result (λ made. IsCompiled lowered made.0 made.1) }
{
    let Lowered {
        net,
        rows,
        mode,
        shape,
    } = lowered;
    let roots = roots_of(alloc, &net, rows.items(), mode)?;
    let Walked { net: kept, ids } = keep_nodes(alloc, &net, &roots)?;
    let parts = parts_of(alloc, &net, &kept, ids.items(), rows.items(), shape)?;
    match Table::make(alloc, parts) {
        Ok(table) => Ok((kept, table)),
        Err(TableEnd::NoMemory) => Err(NoMemory),
        Err(TableEnd::BadTable) => unreachable!(),
    }
}
