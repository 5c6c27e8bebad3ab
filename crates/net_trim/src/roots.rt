//! The nodes that are asked for of a lowered design.

ghost use Rattle.std.specs.Prelude.{◌≡◌, ◌++◌, IfOk, OnOk, map};
ghost use Rattle.std.specs.List.{flat_map};
ghost use Rattle.net_core.specs.Nets.{outputs_of};
ghost use Rattle.net_trim.specs.Roots.{id_of, on_of, cell_ids, row_ids, named_ids, root_ids};

use bv_core::NodeId;
use lower_core::FullRow;
use net_core::Net;
use std::alloc::Global;
use text_core::{NoMemory, Text};
use world_core::Mode;

/// Puts the nodes of outputs last.
fn push_outputs(roots: &mut Vec<NodeId>, outputs: &[(Text, NodeId)]) -> Result<(), NoMemory>
    ensures { OnOk result (roots.new.items ≡ roots.old.items ++ map id_of (outputs_of outputs.now)) }
{
    for (_, id) in outputs {
        roots.push(*id)?;
    }
    Ok(())
}

/// Puts the enables of rows last.
fn push_enables(roots: &mut Vec<NodeId>, rows: &[FullRow]) -> Result<(), NoMemory>
    ensures { OnOk result (roots.new.items ≡ roots.old.items ++ map on_of rows.now) }
{
    for row in rows {
        roots.push(row.on)?;
    }
    Ok(())
}

/// Puts the nodes of cells last.
fn push_cells(roots: &mut Vec<NodeId>, cells: &[Option<NodeId>]) -> Result<(), NoMemory>
    ensures { OnOk result (roots.new.items ≡ roots.old.items ++ cell_ids cells.now) }
{
    for cell in cells {
        if let Some(id) = cell {
            roots.push(*id)?;
        }
    }
    Ok(())
}

/// Puts the nodes of the cells of rows last.
fn push_rows(roots: &mut Vec<NodeId>, rows: &[FullRow]) -> Result<(), NoMemory>
    ensures { OnOk result (roots.new.items ≡ roots.old.items ++ flat_map row_ids rows.now) }
{
    for row in rows {
        push_cells(roots, row.cells.items())?;
    }
    Ok(())
}

/// The nodes of the outputs, the enables of the rows and, where names are kept, the nodes of their cells.
pub(crate) fn roots_of(
    alloc: Global,
    net: &Net,
    rows: &[FullRow],
    mode: Mode,
) -> Result<Vec<NodeId>, NoMemory>
    ensures { IfOk result (λ roots. roots.items ≡ root_ids net.now.outputs mode rows.now) }
{
    let mut roots = Vec::new(alloc);
    push_outputs(&mut roots, net.outputs())?;
    push_enables(&mut roots, rows)?;
    match mode {
        Mode::Opt => {}
        Mode::Keep => push_rows(&mut roots, rows)?,
    }
    Ok(roots)
}
