//! Reads a symbol file, in several passes over its text. The first judges whether it is JSON at all, the second reads what its slots are read over, and
//! those behind it the slots and the parts that are left, each in a pass of its own. The parts are judged one after another in the order of their
//! names, and the numbers of nodes and variants last. So nothing is kept of a file but its table: no tree of it is made, and what is passed over takes
//! no room.

ghost use Rattle.std.specs.Prelude.{◌≡◌, true, false, Ok, IfOk, IfErr, Option, Some, codes, option_map};
ghost use Rattle.std.specs.Option.{option_map_or};
ghost use Rattle.symtab_json.specs.Entries.{kept_if, told_list, told_member, told_node, told_short, told_slot};
ghost use Rattle.symtab_json.specs.Judged.{names_of_nodes_differ, paths_differ, told_instances, told_slots, told_top, variants_len, told_parts};
ghost use Rattle.symtab_json.specs.Members.{IsPreface};
ghost use Rattle.symtab_json.specs.Fit.{AreTableParts};
ghost use Rattle.symtab_json.specs.JsonText.{value_of, IsJson};
ghost use Rattle.symtab_json.specs.Told.{IsFaultOf, by_instances, by_slots, told_entries, told_table, told_tree};

use crate::entries::{Entries, InstanceEntry, SlotEntry};
use crate::fault::{Part, TableFault};
use crate::fields::member;
use crate::first_pass::json_text;
use crate::judged::{are_apart, are_full, counts_of, is_first};
use crate::numbers::{entries_outside, instance_parts, slot_parts};
use crate::preface::{Preface, preface_in};
use crate::readings::{FiledSlots, PlainSlots};
use crate::told::{ListLen, LongList, Told};
use json::{Reader, Scratch};
use std::alloc::Global;
use symtab::{NodeName, Table, TableEnd, TableParts, VariantParts};
use text_core::{Listed, NoMemory, Text};

/// The largest file in bytes: 64 MiB.
const MOST_BYTES: usize = 64 << 20;

/// What the part of a file with this key tells, over these nodes.
fn part<T: Told + Drop>(
    alloc: Global,
    scratch: &mut Scratch,
    text: &str,
    nodes: &[NodeName],
    key: &str,
) -> Result<Option<T>, NoMemory>
    requires { IsJson text.now }
    ensures { IfOk result (λ found. found ≡ told_member (T.told nodes.now) key.now (value_of text.now)) }
{
    let mut reader = Reader::new(text, scratch)?;
    member(alloc, nodes, &mut reader, key)
}

/// Instances whose paths differ. None where two are the same, and where there is no list of them.
fn apart_instances(
    alloc: Global,
    found: Option<Listed<InstanceEntry>>,
) -> Result<Option<Listed<InstanceEntry>>, NoMemory>
    ensures { IfOk result (λ kept. kept ≡ kept_if paths_differ found) }
{
    let Some(instances) = found else {
        return Ok(None);
    };
    if are_apart(alloc, instances.items())? {
        Ok(Some(instances))
    } else {
        Ok(None)
    }
}

/// Nodes whose names differ. None where two are the same, and where there is no list of them.
fn apart_nodes(
    alloc: Global,
    found: Option<LongList<NodeName>>,
) -> Result<Option<Listed<NodeName>>, NoMemory>
    ensures { IfOk result (λ kept. kept ≡ kept_if names_of_nodes_differ (option_map (λ list. list.items) found)) }
{
    let Some(list) = found else {
        return Ok(None);
    };
    if are_apart(alloc, list.items.items())? {
        Ok(Some(list.items))
    } else {
        Ok(None)
    }
}

/// How many entries a list has; none where there is no list.
fn count_of(list: Option<ListLen>) -> usize
    ensures { result ≡ option_map_or (λ n. n.0) list 0 }
{
    match list {
        Some(len) => len.0,
        None => 0,
    }
}

/// The list of the slots of a file with these nodes, each with its file.
fn filed_slots(
    alloc: Global,
    scratch: &mut Scratch,
    text: &str,
    nodes: &[NodeName],
) -> Result<Option<Listed<SlotEntry>>, NoMemory>
    requires { IsJson text.now }
    ensures { IfOk result (λ found. found ≡ told_member (told_short (told_slot true nodes.now)) (codes "slots") (value_of text.now)) }
{
    let found: Option<FiledSlots> = part(alloc, scratch, text, nodes, "slots")?;
    match found {
        Some(list) => Ok(Some(list.slots)),
        None => Ok(None),
    }
}

/// The list of the slots of a file with these nodes, all of file 0.
fn plain_slots(
    alloc: Global,
    scratch: &mut Scratch,
    text: &str,
    nodes: &[NodeName],
) -> Result<Option<Listed<SlotEntry>>, NoMemory>
    requires { IsJson text.now }
    ensures { IfOk result (λ found. found ≡ told_member (told_short (told_slot false nodes.now)) (codes "slots") (value_of text.now)) }
{
    let found: Option<PlainSlots> = part(alloc, scratch, text, nodes, "slots")?;
    match found {
        Some(list) => Ok(Some(list.slots)),
        None => Ok(None),
    }
}

/// The list of the slots of a file with these nodes, whose slots have files or have none.
fn slot_list(
    alloc: Global,
    scratch: &mut Scratch,
    text: &str,
    filed: bool,
    nodes: &[NodeName],
) -> Result<Option<Listed<SlotEntry>>, NoMemory>
    requires { IsJson text.now }
    ensures { IfOk result (λ found. found ≡ told_member (told_short (told_slot filed nodes.now)) (codes "slots") (value_of text.now)) }
{
    if filed {
        filed_slots(alloc, scratch, text, nodes)
    } else {
        plain_slots(alloc, scratch, text, nodes)
    }
}

/// The slots of a file with so many variants, and these instances and nodes. None where they break a rule of shape.
fn slots(
    alloc: Global,
    scratch: &mut Scratch,
    text: &str,
    filed: bool,
    variants: usize,
    instances: &[InstanceEntry],
    nodes: &[NodeName],
) -> Result<Option<Listed<SlotEntry>>, NoMemory>
    requires json { IsJson text.now }
    requires variants { variants ≡ variants_len (value_of text.now) }
    ensures { IfOk result (λ found. found ≡ told_slots filed (value_of text.now) instances.now nodes.now) }
{
    let counts = counts_of(alloc, instances)?;
    let Some(slots) = slot_list(alloc, scratch, text, filed, nodes)? else {
        return Ok(None);
    };
    if are_full(alloc, variants, &counts, slots.items())? {
        Ok(Some(slots))
    } else {
        Ok(None)
    }
}

/// The path of instance 0 of a file with these instances. None where it is another.
fn top(
    alloc: Global,
    scratch: &mut Scratch,
    text: &str,
    instances: &[InstanceEntry],
) -> Result<Option<Text>, NoMemory>
    requires { IsJson text.now }
    ensures { IfOk result (λ found. found ≡ told_top (value_of text.now) instances.now) }
{
    let found: Option<Text> = part(alloc, scratch, text, &[], "top")?;
    let Some(top) = found else {
        return Ok(None);
    };
    if is_first(instances, &top) {
        Ok(Some(top))
    } else {
        Ok(None)
    }
}

/// The entries of a file whose instances, nodes and slots were read: the rest of its parts is read.
fn with_slots(
    alloc: Global,
    scratch: &mut Scratch,
    text: &str,
    instances: Listed<InstanceEntry>,
    nodes: Listed<NodeName>,
    slots: Listed<SlotEntry>,
) -> Result<Entries, TableFault>
    requires { IsJson text.now }
    ensures ok { IfOk result (λ entries. by_slots (value_of text.now) instances nodes (Some slots) ≡ Ok entries) }
    ensures err { IfErr result (IsFaultOf (by_slots (value_of text.now) instances nodes (Some slots))) }
{
    let Some(top) = top(alloc, scratch, text, instances.items())? else {
        return Err(TableFault::BadShape { path: Part::Top });
    };
    let found: Option<Listed<VariantParts>> = part(alloc, scratch, text, &[], "variants")?;
    let Some(variants) = found else {
        return Err(TableFault::BadShape {
            path: Part::Variants,
        });
    };
    Ok(Entries {
        top,
        nodes,
        variants,
        instances,
        slots,
    })
}

/// The entries of a file whose instances were read: the rest of its parts is read.
fn with_instances(
    alloc: Global,
    scratch: &mut Scratch,
    text: &str,
    filed: bool,
    instances: Listed<InstanceEntry>,
    nodes: Option<LongList<NodeName>>,
    variants: Option<ListLen>,
) -> Result<Entries, TableFault>
    requires json { IsJson text.now }
    requires nodes { option_map (λ list. list.items) nodes ≡ told_member (told_list told_node) (codes "nodes") (value_of text.now) }
    requires variants { option_map_or (λ n. n.0) variants 0 ≡ variants_len (value_of text.now) }
    ensures ok { IfOk result (λ entries. by_instances filed (value_of text.now) (Some instances) ≡ Ok entries) }
    ensures err { IfErr result (IsFaultOf (by_instances filed (value_of text.now) (Some instances))) }
{
    let Some(nodes) = apart_nodes(alloc, nodes)? else {
        return Err(TableFault::BadShape { path: Part::Nodes });
    };
    let variants = count_of(variants);
    let found = slots(
        alloc,
        scratch,
        text,
        filed,
        variants,
        instances.items(),
        nodes.items(),
    )?;
    let Some(slots) = found else {
        return Err(TableFault::BadShape { path: Part::Slots });
    };
    with_slots(alloc, scratch, text, instances, nodes, slots)
}

/// The entries of a file whose slots have files or have none, of which this was read.
fn parts_in(
    alloc: Global,
    scratch: &mut Scratch,
    text: &str,
    filed: bool,
    preface: Preface,
) -> Result<Entries, TableFault>
    requires json { IsJson text.now }
    requires preface { IsPreface (value_of text.now) preface }
    ensures ok { IfOk result (λ entries. by_instances filed (value_of text.now) (told_instances (value_of text.now)) ≡ Ok entries) }
    ensures err { IfErr result (IsFaultOf (by_instances filed (value_of text.now) (told_instances (value_of text.now)))) }
{
    match apart_instances(alloc, preface.instances)? {
        Some(instances) => with_instances(
            alloc,
            scratch,
            text,
            filed,
            instances,
            preface.nodes,
            preface.variants,
        ),
        None => Err(TableFault::BadShape {
            path: Part::Instances,
        }),
    }
}

/// The entries of a file.
fn entries_in(alloc: Global, scratch: &mut Scratch, text: &str) -> Result<Entries, TableFault>
    requires { IsJson text.now }
    ensures ok { IfOk result (λ entries. told_tree (value_of text.now) ≡ Ok entries) }
    ensures err { IfErr result (IsFaultOf (told_tree (value_of text.now))) }
{
    let Some(preface) = preface_in(alloc, scratch, text)? else {
        return Err(TableFault::BadShape { path: Part::Whole });
    };
    let Some(found) = preface.version else {
        return Err(TableFault::BadShape {
            path: Part::Version,
        });
    };
    if found == 1 {
        return parts_in(alloc, scratch, text, false, preface);
    }
    if found == 2 {
        return parts_in(alloc, scratch, text, true, preface);
    }
    Err(TableFault::Version { found })
}

/// The entries of the file that bytes are.
fn read_entries(alloc: Global, bytes: &[u8]) -> Result<Entries, TableFault>
    ensures ok { IfOk result (λ entries. told_entries bytes.now ≡ Ok entries) }
    ensures err { IfErr result (IsFaultOf (told_entries bytes.now)) }
{
    if bytes.len() > MOST_BYTES {
        return Err(TableFault::TooLong);
    }
    let mut scratch = Scratch::new(alloc);
    match json_text(&mut scratch, bytes)? {
        Some(text) => entries_in(alloc, &mut scratch, text),
        None => Err(TableFault::NotJson),
    }
}

/// The table of entries that keep the rules of shape, all of whose numbers are in their lists.
fn table_of(alloc: Global, entries: Entries) -> Result<Table, NoMemory>
    requires { AreTableParts entries }
    ensures { IfOk result (λ table. table ≡ told_parts entries) }
{
    let parts = TableParts {
        top: entries.top,
        nodes: entries.nodes,
        variants: entries.variants,
        instances: instance_parts(alloc, entries.instances.into_items())?,
        slots: slot_parts(alloc, entries.slots.into_items())?,
    };
    match Table::make(alloc, parts) {
        Ok(table) => Ok(table),
        Err(TableEnd::NoMemory) => Err(NoMemory),
        Err(TableEnd::BadTable) => unreachable!(),
    }
}

/// The table that a symbol file tells, or the first reason why it tells none.
pub fn read_table(alloc: Global, text: &[u8]) -> Result<Table, TableFault>
    ensures table { IfOk result (λ table. told_table text.now ≡ Ok table) }
    ensures refused { IfErr result (IsFaultOf (told_table text.now)) }
{
    let entries = read_entries(alloc, text)?;
    match entries_outside(&entries) {
        Some(outside) => Err(TableFault::BadReference {
            id: outside.id,
            size: outside.size,
        }),
        None => Ok(table_of(alloc, entries)?),
    }
}
