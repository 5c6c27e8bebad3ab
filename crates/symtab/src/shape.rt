//! The rules that parts have to keep to be a table, each by itself and each under the name that its definition has.

ghost use Rattle.std.specs.Prelude.{◌≡◌, ◌<◌, ◌≤◌, ◌^◌, ◌↔◌, IsTrue, All, length, map, slice_get, Some};
ghost use Rattle.symtab.specs.Shape.{IsShort, IsWidth, AreGens, IsFound, IsCell, IsRow, paths_of, width_of};
ghost use Rattle.symtab.specs.Checked.{IsPlaced, AreRows, IsNumbered};

use crate::places::Places;
use crate::{Cells, GenVariable, InstanceParts, NodeName, Row, Slot, TableParts, VariantParts};
use bv_core::{Binding, Ref};
use text_core::Text;

/// The largest number of a generator variable; the smallest is its negative.
const MOST_GEN: i64 = 1 << 62;

/// Whether a list has fewer than 2^32 entries.
pub fn is_short<T>(items: &[T]) -> bool
    ensures { IsTrue result ↔ IsShort items.now }
{
    items.len() < 1 << 32
}

/// Whether each node has a width from 1 to 128.
pub fn have_widths(nodes: &[NodeName]) -> bool
    ensures { IsTrue result ↔ All (λ node. IsWidth node.width) nodes.now }
{
    nodes
        .iter()
        .all(|node| 1 <= node.width && node.width <= 128)
}

/// Whether these generator variables are few enough, with numbers that are in range.
pub fn are_gens(gens: &[GenVariable]) -> bool
    ensures { IsTrue result ↔ AreGens gens.now }
{
    is_short(gens)
        && gens.iter().all(|variable| -MOST_GEN <= variable.value && variable.value <= MOST_GEN)
}

/// Whether the generator variables of each variant are in order.
pub fn have_gens(variants: &[VariantParts]) -> bool
    ensures { IsTrue result ↔ All (λ variant. AreGens variant.gens) variants.now }
{
    variants
        .iter()
        .all(|variant| are_gens(variant.gens.items()))
}

/// Whether each instance has one of this many variants.
pub fn have_variants(instances: &[InstanceParts], variants: usize) -> bool
    ensures { IsTrue result ↔ All (λ instance. instance.variant < variants) instances.now }
{
    instances
        .iter()
        .all(|instance| (instance.variant as usize) < variants)
}

/// The width in bits of what is found here.
pub fn width_of(at: Ref) -> u8
    ensures { result ≡ width_of at }
{
    match at {
        Ref::Node(_, width) => width,
        Ref::Const(bits) => bits.width(),
    }
}

/// Whether this is a literal, or one of these nodes with its own width.
pub fn is_found(nodes: &[NodeName], at: Ref) -> bool
    ensures { IsTrue result ↔ IsFound nodes.now at }
{
    match at {
        Ref::Node(id, width) => match nodes.get(id.0 as usize) {
            Some(node) => node.width == width,
            None => false,
        },
        Ref::Const(_) => true,
    }
}

/// Whether a cell's value, where it has one, is found.
pub fn is_cell(nodes: &[NodeName], cell: Binding) -> bool
    ensures { IsTrue result ↔ IsCell nodes.now cell }
{
    match cell {
        Binding::Value(at) => is_found(nodes, at),
        Binding::Unset | Binding::Removed => true,
    }
}

/// Whether each cell's value, where it has one, is found.
fn are_cells(nodes: &[NodeName], cells: &Cells) -> bool
    ensures { IsTrue result ↔ All (IsCell nodes.now) cells.now }
{
    for place in 0..cells.len() {
        if !is_cell(nodes, cells.at(place)) {
            return false;
        }
    }
    true
}

/// Whether this is a row over these nodes, for these names.
pub fn is_row(nodes: &[NodeName], names: &[Text], row: &Row) -> bool
    ensures { IsTrue result ↔ IsRow nodes.now names.now row.now }
{
    let cells = &row.cells;
    is_found(nodes, row.on)
        && width_of(row.on) == 1
        && cells.len() < 1 << 32
        && cells.len() == names.len()
        && are_cells(nodes, cells)
}

/// Whether a slot keeps the rules on its rows, over these nodes, where the list has the variant of each instance.
pub fn are_rows(nodes: &[NodeName], variants: &Places, slot: &Slot) -> bool
    ensures { IsTrue result ↔ AreRows nodes.now variants.now slot.now }
{
    let rows = slot.rows.items();
    let names = slot.names.items();
    is_short(rows)
        && rows.len() == variants.places(u64::from(slot.variant)).len()
        && rows.iter().all(|row| is_row(nodes, names, row))
}

/// Whether a slot keeps the rules on its variant, of so many, its line, its generator variables and its number of
/// names.
pub fn is_placed(variants: usize, slot: &Slot) -> bool
    ensures { IsTrue result ↔ IsPlaced variants slot.now }
{
    (slot.variant as usize) < variants
        && slot.line < 1 << 30
        && are_gens(slot.gens.items())
        && is_short(slot.names.items())
}

/// Whether this is the path of instance 0.
pub fn is_top(instances: &[InstanceParts], top: &Text) -> bool
    ensures { IsTrue result ↔ (slice_get (paths_of instances.now) 0 ≡ Some top.now) }
{
    match instances.first() {
        Some(first) => first.path.bytes() == top.bytes(),
        None => false,
    }
}

/// Whether the parts keep the rules that speak neither of slots nor of names that differ.
pub fn is_numbered(parts: &TableParts) -> bool
    ensures { IsTrue result ↔ IsNumbered parts.now }
{
    let variants = parts.variants.items();
    let instances = parts.instances.items();
    have_widths(parts.nodes.items())
        && is_short(variants)
        && have_gens(variants)
        && is_short(instances)
        && have_variants(instances, variants.len())
        && is_top(instances, &parts.top)
        && is_short(parts.slots.items())
}
