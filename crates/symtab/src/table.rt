//! The table of a compiled design. It refuses parts that break a rule of shape, and looks nothing up by going over all of it.

ghost use Rattle.std.specs.Prelude.{◌≡◌, ◌<◌, ◌↔◌, ℕ, Some, IfOk, IfSome, IsErrOf, IsSome, OnOk, All, Contains, length, map, slice_get, position, bytes_eq};
ghost use Rattle.symtab.specs.Places.{places};
ghost use Rattle.symtab.specs.Checked.{AreNamed};
ghost use Rattle.symtab.specs.Shape.{IsShort, IsSlot, IsTable, IsFound, IsCell, width_of, variants_of, lines_of, paths_of};
ghost use Rattle.symtab.specs.Lookups.{instances_of, row_of, enable_of, binding_of, IsInScope};

use crate::named::distinct_names;
use crate::names_in_scope::NameIndex;
use crate::places::Places;
use crate::shape::{are_rows, is_numbered, is_placed};
use crate::{InstanceParts, NodeName, Row, Slot, TableEnd, TableParts};
use bv_core::{Binding, Ref};
use names::NameSet;
use std::alloc::{AllocError, Global};
use std::marker::Model;
use text_core::NoMemory;

/// The symbol table of a compiled design: its parts, which keep the rules of shape, with tables by line, variant, path
/// and name, so that no look-up goes over them. No look-up takes memory. Contracts see the parts.
#[derive(Drop)]
pub struct Table {
    parts: TableParts,
    lines: Places,
    variants: Places,
    paths: NameSet,
    names: Vec<NameIndex>,
}

impl Model for Table {
    ghost use Rattle.symtab.specs.declared.parts.TableParts.{TableParts};

    ghost Value = { TableParts };

    ghost use Rattle.symtab.specs.Indexed.{IsIndexed};

    ghost view = { λ t. t.parts };

    ghost invariant = { λ t. IsIndexed t.parts t.lines t.variants t.paths t.names.items };
}

/// The variant of each instance.
fn variants_of(alloc: Global, instances: &[InstanceParts]) -> Result<Vec<u32>, AllocError>
    ensures { IfOk result (λ variants. variants.items ≡ variants_of instances.now) }
{
    let mut variants = Vec::new(alloc);
    for instance in instances {
        variants.push(instance.variant)?;
    }
    Ok(variants)
}

/// The line of each slot.
fn lines_of(alloc: Global, slots: &[Slot]) -> Result<Vec<u32>, AllocError>
    ensures { IfOk result (λ lines. lines.items ≡ lines_of slots.now) }
{
    let mut lines = Vec::new(alloc);
    for slot in slots {
        lines.push(slot.line)?;
    }
    Ok(lines)
}

/// The names of a slot, which are those of the slot before where they are the same. None where the slot breaks a rule, over these
/// nodes and so many variants, where the list has the variant of each instance.
fn slot_names(
    alloc: Global,
    nodes: &[NodeName],
    count: usize,
    variants: &Places,
    before: Option<&NameIndex>,
    slot: &Slot,
) -> Result<Option<NameIndex>, NoMemory>
    ensures fits { IfOk result (λ found. IsSome found ↔ IsSlot nodes.now count variants.now slot.now) }
    ensures names { IfOk result (λ found. IfSome found (λ names. names ≡ slot.now.names)) }
{
    if !is_placed(count, slot) || !are_rows(nodes, variants, slot) {
        return Ok(None);
    }
    NameIndex::of(alloc, before, &slot.names)
}

/// The names of each slot. None where a slot breaks a rule, over these nodes and so many variants, where the list has
/// the variant of each instance.
fn all_names(
    alloc: Global,
    nodes: &[NodeName],
    count: usize,
    variants: &Places,
    slots: &[Slot],
) -> Result<Option<Vec<NameIndex>>, NoMemory>
    ensures fits { IfOk result (λ found. IsSome found ↔ All (IsSlot nodes.now count variants.now) slots.now) }
    ensures names { IfOk result (λ found. IfSome found (λ names. names.items ≡ map (λ slot. slot.names) slots.now)) }
{
    let mut all: Vec<NameIndex> = Vec::new(alloc);
    for slot in slots {
        let Some(names) = slot_names(alloc, nodes, count, variants, all.last(), slot)? else {
            return Ok(None);
        };
        all.push(names)?;
    }
    Ok(Some(all))
}

/// Where each line stands among the slots, and each variant among the instances.
fn places_of(alloc: Global, parts: &TableParts) -> Result<(Places, Places), NoMemory>
    requires slots { IsShort parts.now.slots }
    requires instances { IsShort parts.now.instances }
    ensures lines { IfOk result (λ found. found.0 ≡ lines_of parts.now.slots) }
    ensures variants { IfOk result (λ found. found.1 ≡ variants_of parts.now.instances) }
{
    let lines = Places::new(alloc, lines_of(alloc, parts.slots.items())?)?;
    let variants = Places::new(alloc, variants_of(alloc, parts.instances.items())?)?;
    Ok((lines, variants))
}

/// The paths of the instances, and the names of each slot. None where two nodes or two instances have one name, or where a
/// slot breaks a rule, where the list has the variant of each instance.
fn names_of(
    alloc: Global,
    parts: &TableParts,
    variants: &Places,
) -> Result<Option<(NameSet, Vec<NameIndex>)>, NoMemory>
    ensures fits { IfOk result (λ found. IsSome found ↔ AreNamed variants.now parts.now) }
    ensures paths { IfOk result (λ found. IfSome found (λ names. names.0 ≡ paths_of parts.now.instances)) }
    ensures names { IfOk result (λ found. IfSome found (λ names. names.1.items ≡ map (λ slot. slot.names) parts.now.slots)) }
{
    let nodes = parts.nodes.items();
    if distinct_names(alloc, nodes)?.is_none() {
        return Ok(None);
    }
    let Some(paths) = distinct_names(alloc, parts.instances.items())? else {
        return Ok(None);
    };
    let count = parts.variants.items().len();
    let Some(names) = all_names(alloc, nodes, count, variants, parts.slots.items())? else {
        return Ok(None);
    };
    Ok(Some((paths, names)))
}

impl Table {
    /// The table of these parts. `BadTable` exactly where they break a rule of shape: a width is not 1 to 128; two
    /// nodes, two instances or two names of a slot have one name; a variant is not there; a slot has not a row for each
    /// instance of its variant, or a row not a cell for each name; a reference is no node of that width, or an enable
    /// not of width 1; `top` is not the path of instance 0; a line is 2^30 or more; a generator variable's number is not
    /// from -2^62 to 2^62; or a list other than the nodes has 2^32 entries or more.
    pub fn make(alloc: Global, parts: TableParts) -> Result<Table, TableEnd>
        ensures parts { IfOk result (λ table. table ≡ parts) }
        ensures table { OnOk result (IsTable parts) }
        ensures refused { IsErrOf result TableEnd.BadTable → IsTable parts → ⊥ }
    {
        if !is_numbered(&parts) {
            return Err(TableEnd::BadTable);
        }
        let (lines, variants) = places_of(alloc, &parts)?;
        let Some((paths, names)) = names_of(alloc, &parts, &variants)? else {
            return Err(TableEnd::BadTable);
        };
        Ok(Table {
            parts,
            lines,
            variants,
            paths,
            names,
        })
    }

    /// The parts that it was made of.
    pub fn parts(&self) -> &TableParts
        ensures parts { result.now ≡ self.now }
        ensures table { IsTable self.now }
    {
        &self.parts
    }

    /// The number of slots, below 2^32.
    pub fn slots(&self) -> u32
        ensures { result ≡ length self.now.slots }
    {
        self.parts.slots.items().len() as u32
    }

    /// The slot of this number, counted from 0.
    pub fn slot(&self, k: u32) -> &Slot
        requires { k < length self.now.slots }
        ensures { slice_get self.now.slots k ≡ Some result.now }
    {
        &self.parts.slots.items()[k as usize]
    }

    /// The numbers of the slots on a line, rising; none for a line without slots.
    pub fn slots_on(&self, line: u64) -> &[u32]
        ensures slots { result.now ≡ places line (lines_of self.now.slots) }
        ensures within { All (λ k. k < length self.now.slots) result.now }
    {
        self.lines.places(line)
    }

    /// The instances of a slot's variant, rising. The rows of the slot stand for them in this order.
    pub fn instances_of(&self, k: u32) -> &[u32]
        requires { k < length self.now.slots }
        ensures instances { result.now ≡ instances_of self.now k }
        ensures within { All (λ instance. instance < length self.now.instances) result.now }
    {
        self.variants.places(u64::from(self.slot(k).variant))
    }

    /// The instance that has this path. None where no instance has it.
    pub fn instance_named(&self, path: &str) -> Option<u32>
        ensures instance { result ≡ position (bytes_eq path.now) (paths_of self.now.instances) }
        ensures named { IfSome result (λ instance. slice_get (paths_of self.now.instances) instance ≡ Some path.now) }
        ensures there { IsSome result ↔ Contains (paths_of self.now.instances) path.now }
    {
        let place = self.paths.place_of(path.as_bytes())?;
        Some(place as u32)
    }

    /// The row of a slot for an instance of its variant.
    fn row(&self, k: u32, instance: u32) -> &Row
        requires { Contains (instances_of self.now k) instance }
        ensures row { row_of self.now k instance ≡ Some result.now }
        ensures found { IsFound self.now.nodes result.now.on }
        ensures bit { width_of result.now.on ≡ 1 }
        ensures cells { All (IsCell self.now.nodes) result.now.cells }
    {
        &self.slot(k).rows.items()[self.variants.rank(instance) as usize]
    }

    /// Where the enable of a slot is found for an instance of its variant: at a node of width 1, or as a literal of
    /// width 1.
    pub fn enable(&self, k: u32, instance: u32) -> Ref
        requires { Contains (instances_of self.now k) instance }
        ensures enable { enable_of self.now k instance ≡ Some result }
        ensures found { IsFound self.now.nodes result }
        ensures bit { width_of result ≡ 1 }
    {
        self.row(k, instance).on
    }

    /// What a name stands for at a slot, for an instance of its variant. None where the name is not in scope there.
    pub fn binding(&self, k: u32, instance: u32, name: &str) -> Option<Binding>
        requires { Contains (instances_of self.now k) instance }
        ensures binding { result ≡ binding_of self.now k instance name.now }
        ensures cell { IfSome result (IsCell self.now.nodes) }
        ensures scope { IsSome result ↔ IsInScope self.now k name.now }
    {
        let place = self.names[k as usize].place_of(name.as_bytes())?;
        Some(self.row(k, instance).cells.at(place))
    }
}
