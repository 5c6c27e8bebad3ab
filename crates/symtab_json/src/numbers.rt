//! The numbers of nodes and variants. They are judged after all else: the first that is outside its list is told, and
//! where none is, the entries are the parts of a table.

ghost use Rattle.std.specs.Prelude.{◌≡◌, ◌<◌, ◌^◌, IfOk, map};
ghost use Rattle.std.specs.List.{AllByRecursion};
ghost use Rattle.symtab_json.specs.Judged.{cell_outside, entries_outside, first_outside, instance_outside, instance_parts, outside_list, ref_outside, row_outside, slot_outside, slot_parts};

use crate::entries::{Entries, InstanceEntry, Outside, SlotEntry};
use bv_core::{Binding, Ref};
use std::alloc::Global;
use symtab::{Cells, InstanceParts, Row, Slot};
use text_core::{Listed, NoMemory};

/// A number, if it is outside a list of this size.
fn outside_list(size: usize, id: u64) -> Option<Outside>
    ensures { result ≡ outside_list size id }
{
    let size = size as u64;
    if size <= id {
        Some(Outside { id, size })
    } else {
        None
    }
}

/// The number of a node, if it is outside so many.
fn ref_outside(nodes: usize, at: Ref) -> Option<Outside>
    ensures { result ≡ ref_outside nodes at }
{
    match at {
        Ref::Node(id, _) => outside_list(nodes, id.0),
        Ref::Const(_) => None,
    }
}

/// The number of a node that a cell has, if it is outside so many.
fn cell_outside(nodes: usize, cell: Binding) -> Option<Outside>
    ensures { result ≡ cell_outside nodes cell }
{
    match cell {
        Binding::Value(at) => ref_outside(nodes, at),
        Binding::Unset | Binding::Removed => None,
    }
}

/// The first number of a node in cells that is outside so many.
fn cells_outside(nodes: usize, cells: &Cells) -> Option<Outside>
    ensures { result ≡ first_outside (cell_outside nodes) cells.now }
{
    for place in 0..cells.len() {
        if let Some(outside) = cell_outside(nodes, cells.at(place)) {
            return Some(outside);
        }
    }
    None
}

/// The first number of a node in a row that is outside so many.
fn row_outside(nodes: usize, row: &Row) -> Option<Outside>
    ensures { result ≡ row_outside nodes row.now }
{
    match cells_outside(nodes, &row.cells) {
        Some(outside) => Some(outside),
        None => ref_outside(nodes, row.on),
    }
}

/// The first number of a node in rows that is outside so many.
fn rows_outside(nodes: usize, rows: &[Row]) -> Option<Outside>
    ensures { result ≡ first_outside (row_outside nodes) rows.now }
{
    for row in rows {
        if let Some(outside) = row_outside(nodes, row) {
            return Some(outside);
        }
    }
    None
}

/// The first number in a slot that is outside its list, of so many variants and nodes.
fn slot_outside(variants: usize, nodes: usize, slot: &SlotEntry) -> Option<Outside>
    ensures { result ≡ slot_outside variants nodes slot.now }
{
    match outside_list(variants, slot.variant) {
        Some(outside) => Some(outside),
        None => rows_outside(nodes, slot.rows.items()),
    }
}

/// The first number in slots that is outside its list, of so many variants and nodes.
fn slots_outside(variants: usize, nodes: usize, slots: &[SlotEntry]) -> Option<Outside>
    ensures { result ≡ first_outside (slot_outside variants nodes) slots.now }
{
    for slot in slots {
        if let Some(outside) = slot_outside(variants, nodes, slot) {
            return Some(outside);
        }
    }
    None
}

/// The first variant of an instance that is outside so many.
fn instances_outside(variants: usize, instances: &[InstanceEntry]) -> Option<Outside>
    ensures { result ≡ first_outside (instance_outside variants) instances.now }
{
    for instance in instances {
        if let Some(outside) = outside_list(variants, instance.variant) {
            return Some(outside);
        }
    }
    None
}

/// The first number of a file that is outside its list.
pub(crate) fn entries_outside(entries: &Entries) -> Option<Outside>
    ensures { result ≡ entries_outside entries.now }
{
    let variants = entries.variants.items().len();
    match instances_outside(variants, entries.instances.items()) {
        Some(outside) => Some(outside),
        None => slots_outside(variants, entries.nodes.items().len(), entries.slots.items()),
    }
}

/// The parts that instances are, whose variants are below 2^32.
pub(crate) fn instance_parts(
    alloc: Global,
    instances: Vec<InstanceEntry>,
) -> Result<Listed<InstanceParts>, NoMemory>
    requires { AllByRecursion (λ instance. instance.variant < 2 ^ 32) instances.items }
    ensures { IfOk result (λ parts. parts ≡ map instance_parts instances.items) }
{
    let mut parts = Vec::with_capacity(alloc, instances.len())?;
    for instance in instances {
        parts.push(InstanceParts {
            path: instance.path,
            variant: instance.variant as u32,
        })?;
    }
    Ok(Listed::new(parts))
}

/// The parts that slots are, whose variants are below 2^32.
pub(crate) fn slot_parts(alloc: Global, slots: Vec<SlotEntry>) -> Result<Listed<Slot>, NoMemory>
    requires { AllByRecursion (λ slot. slot.variant < 2 ^ 32) slots.items }
    ensures { IfOk result (λ parts. parts ≡ map slot_parts slots.items) }
{
    let mut parts = Vec::with_capacity(alloc, slots.len())?;
    for slot in slots {
        parts.push(Slot {
            variant: slot.variant as u32,
            line: slot.line,
            gens: slot.gens,
            names: slot.names,
            rows: slot.rows,
        })?;
    }
    Ok(Listed::new(parts))
}
