//! What each entry of a symbol file tells.

ghost use Rattle.std.specs.Prelude.{◌≡◌, ◌∷◌, ◌++◌, [], true, false, IfOk, OnOk, None, Some, option_map};
ghost use Rattle.std.specs.Bool.{MatchBool};
ghost use Rattle.bv_core.specs.declared.Binding.{Binding};
ghost use Rattle.serde_json.specs.Data.{Data};
ghost use Rattle.serde_json.specs.Find.{as_str};
ghost use Rattle.symtab_json.specs.Begun.{IsScalar};
ghost use Rattle.symtab_json.specs.Entries.{made_row, made_slot, told_short, told_mark, told_cell, told_gen, told_instance, told_items, told_node, told_on, told_ref, told_row, told_slot, told_variant, told_width_at, file_found, made_place};
ghost use Rattle.symtab_json.specs.Standing.{head_items, head_value, past_items, past_value, AreItems, IsValue};

use crate::entries::{InstanceEntry, SlotEntry};
use crate::fields::{Fields, object};
use crate::json_number::Number;
use crate::literal::literal;
use crate::tokens::{Scalar, opens_list, pass_items, pass_value, read_scalar};
use crate::told::{Told, pair, push_item};
use bv_core::{Binding, NodeId, Ref};
use json::Reader;
use places::{FILES_MAX, place};
use std::alloc::Global;
use symtab::{Cells, GenVariable, Names, NodeName, Row, VariantParts};
use text_core::{Listed, NoMemory, Text};

impl Told for NodeName {
    ghost told = { λ nodes d. told_node d };

    #[tactic(auto, using(crate::proofs::Pairs::node_paired))]
    fn read(
        alloc: Global,
        nodes: &[NodeName],
        reader: &mut Reader<'_>,
    ) -> Result<Option<Self>, NoMemory> {
        let found: Option<(Text, u8)> = pair(alloc, nodes, reader)?;
        Ok(found.map(|(name, width)| NodeName { name, width }))
    }
}

impl Told for GenVariable {
    ghost told = { λ nodes d. told_gen d };

    #[tactic(auto, using(crate::proofs::Pairs::gen_paired))]
    fn read(
        alloc: Global,
        nodes: &[NodeName],
        reader: &mut Reader<'_>,
    ) -> Result<Option<Self>, NoMemory> {
        let found: Option<(Text, i64)> = pair(alloc, nodes, reader)?;
        Ok(found.map(|(name, value)| GenVariable { name, value }))
    }
}

impl Told for VariantParts {
    ghost told = { λ nodes d. told_variant d };

    #[tactic(auto, using(crate::proofs::Pairs::variant_paired))]
    fn read(
        alloc: Global,
        nodes: &[NodeName],
        reader: &mut Reader<'_>,
    ) -> Result<Option<Self>, NoMemory> {
        let found: Option<(Text, Listed<GenVariable>)> = pair(alloc, nodes, reader)?;
        Ok(found.map(|(module, gens)| VariantParts { module, gens }))
    }
}

impl Told for InstanceEntry {
    ghost told = { λ nodes d. told_instance d };

    #[tactic(auto, using(crate::proofs::Pairs::instance_paired))]
    fn read(
        alloc: Global,
        nodes: &[NodeName],
        reader: &mut Reader<'_>,
    ) -> Result<Option<Self>, NoMemory> {
        let found: Option<(Text, u64)> = pair(alloc, nodes, reader)?;
        Ok(found.map(|(path, variant)| InstanceEntry { path, variant }))
    }
}

/// The width of a node; 1 where there is no such node.
fn told_width_at(nodes: &[NodeName], id: u64) -> u8
    ensures { result ≡ told_width_at nodes.now id }
{
    match nodes.get(id as usize) {
        Some(node) => node.width,
        None => 1,
    }
}

/// Where a value is found: the number of a node, or a literal.
fn ref_of(alloc: Global, nodes: &[NodeName], scalar: Scalar<'_>) -> Result<Option<Ref>, NoMemory>
    ensures { IfOk result (λ found. (d : Data) → IsScalar scalar.entry d → found ≡ told_ref nodes.now d) }
{
    if let Some(id) = scalar.number.and_then(Number::as_u64) {
        return Ok(Some(Ref::Node(NodeId(id), told_width_at(nodes, id))));
    }
    let Some(text) = scalar.text else {
        return Ok(None);
    };
    Ok(literal(alloc, text.as_bytes())?.map(Ref::Const))
}

impl Told for Ref {
    ghost told = { told_ref };

    fn read(
        alloc: Global,
        nodes: &[NodeName],
        reader: &mut Reader<'_>,
    ) -> Result<Option<Self>, NoMemory> {
        ref_of(alloc, nodes, read_scalar(reader))
    }
}

/// What a word stands for that is no value.
fn told_mark(text: &str) -> Option<Binding>
    ensures { result ≡ told_mark text.now }
{
    if text == "unset" {
        Some(Binding::Unset)
    } else if text == "removed" {
        Some(Binding::Removed)
    } else {
        None
    }
}

/// Reads what a name stands for, and puts it behind the others. False where the value tells none.
fn push_cell(
    alloc: Global,
    nodes: &[NodeName],
    reader: &mut Reader<'_>,
    cells: &mut Cells,
) -> Result<bool, NoMemory>
    requires { IsValue reader.old }
    ensures told { IfOk result (λ is. MatchBool is
        ((cell : Binding) × (told_cell nodes.now (head_value reader.old) ≡ Some cell) × (cells.new ≡ cells.old ++ cell ∷ []))
        (told_cell nodes.now (head_value reader.old) ≡ None)) }
    ensures passed { OnOk result (reader.new ≡ past_value reader.old) }
{
    let scalar = read_scalar(reader);
    if let Some(mark) = scalar.text.and_then(told_mark) {
        cells.push(mark)?;
        return Ok(true);
    }
    let Some(at) = ref_of(alloc, nodes, scalar)? else {
        return Ok(false);
    };
    cells.push(Binding::Value(at))?;
    Ok(true)
}

/// The cells of a row that are left.
#[tactic(auto, using(crate::proofs::Heads::item_value, crate::proofs::Heads::items_left, crate::proofs::Heads::items_past, crate::proofs::Heads::items_head, crate::proofs::Heads::items_shorter, crate::proofs::Heads::items_end_past, crate::proofs::Heads::items_end_head, crate::proofs::Behind::behind_first, crate::proofs::Behind::behind_none, crate::proofs::Behind::behind_end))]
fn cells(
    alloc: Global,
    nodes: &[NodeName],
    reader: &mut Reader<'_>,
) -> Result<Option<Cells>, NoMemory>
    requires { AreItems reader.old }
    ensures told { IfOk result (λ found. found ≡ told_items (told_cell nodes.now) (head_items reader.old)) }
    ensures passed { OnOk result (reader.new ≡ past_items reader.old) }
{
    let mut cells = Cells::with_capacity(alloc, 0)?;
    'items: while !reader.take_end_array() {
        if !push_cell(alloc, nodes, reader, &mut cells)? {
            pass_items(reader);
            return Ok(None);
        }
    }
    Ok(Some(cells))
}

/// The same cells, with room for no more.
fn fitted(alloc: Global, cells: &Cells) -> Result<Cells, NoMemory>
    ensures { IfOk result (λ fitted. fitted ≡ cells.now) }
{
    let mut fitted = Cells::with_capacity(alloc, cells.len())?;
    for place in 0..cells.len() {
        fitted.push(cells.at(place))?;
    }
    Ok(fitted)
}

impl Told for Cells {
    ghost told = { λ nodes d. told_short (told_cell nodes) d };

    fn read(
        alloc: Global,
        nodes: &[NodeName],
        reader: &mut Reader<'_>,
    ) -> Result<Option<Self>, NoMemory> {
        if !opens_list(reader) {
            return Ok(None);
        }
        match cells(alloc, nodes, reader)? {
            Some(cells) if cells.len() < 1 << 32 => Ok(Some(fitted(alloc, &cells)?)),
            _ => Ok(None),
        }
    }
}

/// Where an enable is found, which has width 1.
fn on(alloc: Global, nodes: &[NodeName], reader: &mut Reader<'_>) -> Result<Option<Ref>, NoMemory>
    requires { IsValue reader.old }
    ensures told { IfOk result (λ found. found ≡ told_on nodes.now (head_value reader.old)) }
    ensures passed { OnOk result (reader.new ≡ past_value reader.old) }
{
    let Some(at) = Ref::read(alloc, nodes, reader)? else {
        return Ok(None);
    };
    let width = match at {
        Ref::Node(_, width) => width,
        Ref::Const(bits) => bits.width(),
    };
    if width == 1 { Ok(Some(at)) } else { Ok(None) }
}

/// The members of a row.
#[derive(Drop)]
pub struct RowFields {
    on: Option<Ref>,
    cells: Option<Cells>,
}

impl Fields for RowFields {
    ghost use Rattle.symtab_json.specs.Members.{row_fields};

    ghost of = { row_fields };

    fn empty() -> Self {
        RowFields {
            on: None,
            cells: None,
        }
    }

    #[tactic(auto, using(crate::proofs::Objects::row_other))]
    fn take(
        &mut self,
        alloc: Global,
        nodes: &[NodeName],
        reader: &mut Reader<'_>,
        key: &str,
    ) -> Result<(), NoMemory> {
        if key == "on" {
            self.on = on(alloc, nodes, reader)?;
        } else if key == "cells" {
            self.cells = Cells::read(alloc, nodes, reader)?;
        } else {
            pass_value(reader);
        }
        Ok(())
    }
}

/// The row that members are, where none is missing or wrong.
fn row_of(fields: RowFields) -> Option<Row>
    ensures { result ≡ made_row fields.on fields.cells }
{
    Some(Row {
        on: fields.on?,
        cells: fields.cells?,
    })
}

impl Told for Row {
    ghost told = { told_row };

    fn read(
        alloc: Global,
        nodes: &[NodeName],
        reader: &mut Reader<'_>,
    ) -> Result<Option<Self>, NoMemory> {
        let found: Option<RowFields> = object(alloc, nodes, reader)?;
        Ok(found.and_then(row_of))
    }
}

/// A list of fewer than 2^32 names.
impl Told for Names {
    ghost told = { λ nodes d. told_short as_str d };

    fn read(
        alloc: Global,
        nodes: &[NodeName],
        reader: &mut Reader<'_>,
    ) -> Result<Option<Self>, NoMemory> {
        let found: Option<Listed<Text>> = Told::read(alloc, nodes, reader)?;
        match found {
            Some(texts) => Ok(Some(Names::new(alloc, texts.into_items())?)),
            None => Ok(None),
        }
    }
}

/// The members of a slot.
#[derive(Drop)]
pub struct SlotFields {
    variant: Option<u64>,
    file: Option<u64>,
    line: Option<u64>,
    gens: Option<Listed<GenVariable>>,
    names: Option<Names>,
    rows: Option<Listed<Row>>,
}

impl Fields for SlotFields {
    ghost use Rattle.symtab_json.specs.Members.{slot_fields};

    ghost of = { slot_fields };

    fn empty() -> Self {
        SlotFields {
            variant: None,
            file: None,
            line: None,
            gens: None,
            names: None,
            rows: None,
        }
    }

    #[tactic(auto, using(crate::proofs::Objects::slot_other))]
    fn take(
        &mut self,
        alloc: Global,
        nodes: &[NodeName],
        reader: &mut Reader<'_>,
        key: &str,
    ) -> Result<(), NoMemory> {
        if key == "variant" {
            self.variant = Told::read(alloc, nodes, reader)?;
        } else if key == "line" {
            self.line = Told::read(alloc, nodes, reader)?;
        } else if key == "gens" {
            self.gens = Told::read(alloc, nodes, reader)?;
        } else if key == "names" {
            self.names = Told::read(alloc, nodes, reader)?;
        } else if key == "rows" {
            self.rows = Told::read(alloc, nodes, reader)?;
        } else if key == "file" {
            self.file = Told::read(alloc, nodes, reader)?;
        } else {
            pass_value(reader);
        }
        Ok(())
    }
}

/// The file of a slot, where slots have files; 0 where they have none.
fn file_found(filed: bool, file: Option<u64>) -> Option<u64>
    ensures { result ≡ file_found filed file }
{
    if filed { file } else { Some(0) }
}

/// The place of a line in a file. None where one is missing or too large.
fn made_place(file: Option<u64>, line: Option<u64>) -> Option<u32>
    ensures { result ≡ made_place file line }
{
    let file = file?;
    let line = line?;
    if file < u64::from(FILES_MAX) && line < 1 << 24 {
        Some(place(file as u32, line as u32))
    } else {
        None
    }
}

/// The slot that members are, where none is missing or wrong.
fn slot_of(filed: bool, fields: SlotFields) -> Option<SlotEntry>
    ensures { result ≡ made_slot fields.variant (made_place (file_found filed fields.file) fields.line) fields.gens fields.names fields.rows }
{
    Some(SlotEntry {
        variant: fields.variant?,
        line: made_place(file_found(filed, fields.file), fields.line)?,
        gens: fields.gens?,
        names: fields.names?,
        rows: fields.rows?,
    })
}

/// A slot, of a file whose slots have files or of one where they have none.
#[tactic(auto, using(crate::proofs::Objects::slot_found, crate::proofs::Objects::no_slot))]
fn read_slot(
    alloc: Global,
    filed: bool,
    nodes: &[NodeName],
    reader: &mut Reader<'_>,
) -> Result<Option<SlotEntry>, NoMemory>
    requires { IsValue reader.old }
    ensures told { IfOk result (λ found. found ≡ told_slot filed nodes.now (head_value reader.old)) }
    ensures passed { OnOk result (reader.new ≡ past_value reader.old) }
{
    let found: Option<SlotFields> = object(alloc, nodes, reader)?;
    match found {
        Some(fields) => Ok(slot_of(filed, fields)),
        None => Ok(None),
    }
}

/// A slot, which has the list of names of the slot before it where they are the same.
fn with_names_of(before: Option<&SlotEntry>, mut slot: SlotEntry) -> Result<SlotEntry, NoMemory>
    ensures { IfOk result (λ shared. shared ≡ slot) }
{
    if let Some(before) = before {
        if before.names.are(slot.names.items()) {
            slot.names = before.names.share()?;
        }
    }
    Ok(slot)
}

/// The slots that are left.
#[tactic(auto, using(crate::proofs::Heads::item_value, crate::proofs::Heads::items_left, crate::proofs::Heads::items_past, crate::proofs::Heads::items_head, crate::proofs::Heads::items_shorter, crate::proofs::Heads::items_end_past, crate::proofs::Heads::items_end_head, crate::proofs::Behind::behind_first, crate::proofs::Behind::behind_none, crate::proofs::Behind::behind_end))]
fn slots(
    alloc: Global,
    filed: bool,
    nodes: &[NodeName],
    reader: &mut Reader<'_>,
) -> Result<Option<Vec<SlotEntry>>, NoMemory>
    requires { AreItems reader.old }
    ensures told { IfOk result (λ found. option_map (λ slots. slots.items) found ≡ told_items (told_slot filed nodes.now) (head_items reader.old)) }
    ensures passed { OnOk result (reader.new ≡ past_items reader.old) }
{
    let mut slots: Vec<SlotEntry> = Vec::new(alloc);
    'items: while !reader.take_end_array() {
        let Some(slot) = read_slot(alloc, filed, nodes, reader)? else {
            pass_items(reader);
            return Ok(None);
        };
        let slot = with_names_of(slots.last(), slot)?;
        push_item(&mut slots, slot)?;
    }
    Ok(Some(slots))
}

/// A list of fewer than 2^32 slots.
fn slot_list(
    alloc: Global,
    filed: bool,
    nodes: &[NodeName],
    reader: &mut Reader<'_>,
) -> Result<Option<Listed<SlotEntry>>, NoMemory>
    requires { IsValue reader.old }
    ensures told { IfOk result (λ found. found ≡ told_short (told_slot filed nodes.now) (head_value reader.old)) }
    ensures passed { OnOk result (reader.new ≡ past_value reader.old) }
{
    if !opens_list(reader) {
        return Ok(None);
    }
    match slots(alloc, filed, nodes, reader)? {
        Some(slots) if slots.len() < 1 << 32 => Ok(Some(Listed::new(slots))),
        _ => Ok(None),
    }
}

/// A list of fewer than 2^32 slots, each with its file.
#[derive(Drop)]
pub struct FiledSlots {
    pub slots: Listed<SlotEntry>,
}

impl Told for FiledSlots {
    ghost told = { λ nodes d. option_map (λ slots. record { slots = slots }) (told_short (told_slot true nodes) d) };

    fn read(
        alloc: Global,
        nodes: &[NodeName],
        reader: &mut Reader<'_>,
    ) -> Result<Option<Self>, NoMemory> {
        match slot_list(alloc, true, nodes, reader)? {
            Some(slots) => Ok(Some(FiledSlots { slots })),
            None => Ok(None),
        }
    }
}

/// A list of fewer than 2^32 slots, all of file 0: a `file` of theirs is passed over.
#[derive(Drop)]
pub struct PlainSlots {
    pub slots: Listed<SlotEntry>,
}

impl Told for PlainSlots {
    ghost told = { λ nodes d. option_map (λ slots. record { slots = slots }) (told_short (told_slot false nodes) d) };

    fn read(
        alloc: Global,
        nodes: &[NodeName],
        reader: &mut Reader<'_>,
    ) -> Result<Option<Self>, NoMemory> {
        match slot_list(alloc, false, nodes, reader)? {
            Some(slots) => Ok(Some(PlainSlots { slots })),
            None => Ok(None),
        }
    }
}
