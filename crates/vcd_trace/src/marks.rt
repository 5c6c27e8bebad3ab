//! Which nodes a table names: one pass over its enables and cells.

ghost use Rattle.std.specs.Prelude.{◌≡◌, ◌<◌, ℕ, IfOk, length, get_or, false};
ghost use Rattle.std.specs.List.{list_any};
ghost use Rattle.vcd_trace.specs.Named.{is_at, cell_names, row_names, slot_names, is_named};
ghost use Rattle.vcd_trace.specs.Marked.{Marks};

use bv_core::{Binding, Ref};
use std::alloc::Global;
use symtab::{Cells, Row, Slot, Table};
use text_core::NoMemory;

/// Marks the node at which something is found.
fn mark_ref(marks: &mut [bool], at: Ref)
    ensures { Marks marks.old marks.new (λ n. is_at n at) }
{
    if let Ref::Node(id, _) = at
        && id.0 < marks.len() as u64
    {
        marks[id.0 as usize] = true;
    }
}

/// Marks the nodes that cells name.
fn mark_cells(marks: &mut [bool], cells: &Cells)
    ensures { Marks marks.old marks.new (λ n. list_any (cell_names n) cells.now) }
{
    for place in 0..cells.len() {
        if let Binding::Value(at) = cells.at(place) {
            mark_ref(marks, at);
        }
    }
}

/// Marks the nodes that rows name.
fn mark_rows(marks: &mut [bool], rows: &[Row])
    ensures { Marks marks.old marks.new (λ n. list_any (row_names n) rows.now) }
{
    for row in rows {
        mark_ref(marks, row.on);
        mark_cells(marks, &row.cells);
    }
}

/// Marks the nodes that slots name.
fn mark_slots(marks: &mut [bool], slots: &[Slot])
    ensures { Marks marks.old marks.new (λ n. list_any (slot_names n) slots.now) }
{
    for slot in slots {
        mark_rows(marks, slot.rows.items());
    }
}

/// For each node of a table, by number, whether a cell or an enable names it.
pub(crate) fn marks_of(alloc: Global, table: &Table) -> Result<Vec<bool>, NoMemory>
    ensures count { IfOk result (λ marks. length marks.items ≡ length table.now.nodes) }
    ensures marks { IfOk result (λ marks. (n : ℕ) → n < length table.now.nodes → get_or marks.items n false ≡ is_named table.now n) }
{
    let parts = table.parts();
    let mut marks = vec![in alloc; false; parts.nodes.items().len()]?;
    mark_slots(&mut marks, parts.slots.items());
    Ok(marks)
}
