//! The rules of shape that look at more than one entry: names that differ, and as many rows and cells as there are
//! instances and names.

ghost use Rattle.std.specs.Prelude.{◌≡◌, ◌||◌, ◌==◌, List, ℕ, IfOk, map, nat_le};
ghost use Rattle.std.specs.List.{list_all};
ghost use Rattle.symtab_json.specs.Judged.{are_full, has_cells, is_first, is_full};
ghost use Rattle.symtab_json.specs.Places.{are_apart, times_counted, instance_count};

use crate::entries::{InstanceEntry, SlotEntry};
use names::NameSet;
use std::alloc::Global;
use std::collections::HashMap;
use symtab::{NodeName, Row};
use text_core::{NoMemory, Text};

/// What has a name.
pub trait Named {
    ghost name_of: { Self → List ℕ };

    /// The bytes of the name.
    fn name(&self) -> &[u8]
        ensures { result.now ≡ name_of self.now };
}

impl Named for NodeName {
    ghost name_of = { λ node. node.name };

    fn name(&self) -> &[u8] {
        self.name.bytes()
    }
}

impl Named for InstanceEntry {
    ghost name_of = { λ instance. instance.path };

    fn name(&self) -> &[u8] {
        self.path.bytes()
    }
}

impl Named for Text {
    ghost name_of = { λ text. text };

    fn name(&self) -> &[u8] {
        self.bytes()
    }
}

/// Whether the names of these items differ.
pub(crate) fn are_apart<T: Named>(alloc: Global, items: &[T]) -> Result<bool, NoMemory>
    ensures { IfOk result (λ apart. apart ≡ are_apart (map (λ item. T.name_of item) items.now)) }
{
    let mut names = NameSet::new(alloc);
    for item in items {
        if !names.insert(alloc, item.name())? {
            return Ok(false);
        }
    }
    Ok(true)
}

/// How many instances each variant has.
pub(crate) fn counts_of(
    alloc: Global,
    instances: &[InstanceEntry],
) -> Result<HashMap<u64, u64>, NoMemory>
    ensures { IfOk result (λ counts. times_counted counts ≡ instance_count instances.now) }
{
    let mut counts: HashMap<u64, u64> = HashMap::new(alloc);
    for instance in instances {
        let before = counts.get(&instance.variant).copied().unwrap_or(0);
        counts.insert(instance.variant, before + 1)?;
    }
    Ok(counts)
}

/// Whether a variant that is one of so many has as many instances as this.
fn has_rows(variants: usize, counts: &HashMap<u64, u64>, variant: u64, rows: usize) -> bool
    ensures { result ≡ (nat_le variants variant || rows == times_counted counts.now variant) }
{
    variants as u64 <= variant || rows as u64 == counts.get(&variant).copied().unwrap_or(0)
}

/// Whether each row has this many cells.
fn have_cells(count: usize, rows: &[Row]) -> bool
    ensures { result ≡ list_all (has_cells count) rows.now }
{
    rows.iter().all(|row| row.cells.len() == count)
}

/// Whether a slot has all its rows and cells, and its names differ.
#[tactic(auto, using(crate::proofs::Kept::map_itself))]
fn is_full(
    alloc: Global,
    variants: usize,
    counts: &HashMap<u64, u64>,
    slot: &SlotEntry,
) -> Result<bool, NoMemory>
    ensures { IfOk result (λ full. full ≡ is_full variants (times_counted counts.now) slot.now) }
{
    let rows = slot.rows.items();
    if !has_rows(variants, counts, slot.variant, rows.len()) {
        return Ok(false);
    }
    let names = slot.names.items();
    if !have_cells(names.len(), rows) {
        return Ok(false);
    }
    Ok(are_apart(alloc, names)?)
}

/// Whether each slot has all its rows and cells, and its names differ.
pub(crate) fn are_full(
    alloc: Global,
    variants: usize,
    counts: &HashMap<u64, u64>,
    slots: &[SlotEntry],
) -> Result<bool, NoMemory>
    ensures { IfOk result (λ full. full ≡ are_full variants (times_counted counts.now) slots.now) }
{
    for slot in slots {
        if !is_full(alloc, variants, counts, slot)? {
            return Ok(false);
        }
    }
    Ok(true)
}

/// Whether this is the path of the first instance.
pub(crate) fn is_first(instances: &[InstanceEntry], path: &Text) -> bool
    ensures { result ≡ is_first instances.now path.now }
{
    match instances.first() {
        Some(first) => first.path.bytes() == path.bytes(),
        None => false,
    }
}
