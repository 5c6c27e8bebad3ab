//! What JSON values tell: the kinds that stand in every part, lists, and pairs. A value of another kind or form tells nothing, and is passed all the
//! same. Of a list no entry is read behind one that tells nothing.

ghost use Rattle.std.specs.Prelude.{◌≡◌, ◌∷◌, ◌++◌, [], List, Option, IfOk, OnOk, Some, option_map};
ghost use Rattle.symtab.specs.declared.parts.NodeName.{NodeName};
ghost use Rattle.serde_json.specs.Data.{Data};
ghost use Rattle.serde_json.specs.Events.{items_len};
ghost use Rattle.serde_json.specs.Find.{as_str};
ghost use Rattle.symtab_json.specs.Entries.{told_count, told_gen_number, told_items, told_list, told_short, told_width};
ghost use Rattle.symtab_json.specs.Judged.{list_len};
ghost use Rattle.symtab_json.specs.Pairs.{told_both, told_pair};
ghost use Rattle.symtab_json.specs.Standing.{head_items, head_value, past_items, past_value, AreItems, IsValue};

use crate::json_number::Number;
use crate::tokens::{opens_list, pass_items, pass_value, read_scalar};
use json::Reader;
use std::alloc::Global;
use symtab::NodeName;
use text_core::{Listed, NoMemory, Text};

/// The largest number of a generator variable; the smallest is its negative.
const MOST_GEN: i64 = 1 << 62;

/// What a JSON value can tell, over the nodes of its file.
pub trait Told: Sized {
    ghost told: { List NodeName → Data → Option Self };

    /// What the value tells that a reader stands at. The value is passed, unless memory runs out.
    fn read(
        alloc: Global,
        nodes: &[NodeName],
        reader: &mut Reader<'_>,
    ) -> Result<Option<Self>, NoMemory>
        requires { IsValue reader.old }
        ensures told { IfOk result (λ found. found ≡ told nodes.now (head_value reader.old)) }
        ensures passed { OnOk result (reader.new ≡ past_value reader.old) };
}

/// A whole number from 0 to 2^64-1.
fn count(reader: &mut Reader<'_>) -> Option<u64>
    requires { IsValue reader.old }
    ensures told { result ≡ told_count (head_value reader.old) }
    ensures passed { reader.new ≡ past_value reader.old }
{
    read_scalar(reader).number.and_then(Number::as_u64)
}

/// A width: a whole number from 1 to 128.
fn width(reader: &mut Reader<'_>) -> Option<u8>
    requires { IsValue reader.old }
    ensures told { result ≡ told_width (head_value reader.old) }
    ensures passed { reader.new ≡ past_value reader.old }
{
    let number = count(reader)?;
    if 1 <= number && number <= 128 {
        Some(number as u8)
    } else {
        None
    }
}

/// The number of a generator variable: a whole number from -2^62 to 2^62.
fn gen_number(reader: &mut Reader<'_>) -> Option<i64>
    requires { IsValue reader.old }
    ensures told { result ≡ told_gen_number (head_value reader.old) }
    ensures passed { reader.new ≡ past_value reader.old }
{
    let number = read_scalar(reader).number.and_then(Number::as_i64)?;
    if -MOST_GEN <= number && number <= MOST_GEN {
        Some(number)
    } else {
        None
    }
}

/// A whole number.
impl Told for u64 {
    ghost told = { λ nodes d. told_count d };

    fn read(
        _alloc: Global,
        _nodes: &[NodeName],
        reader: &mut Reader<'_>,
    ) -> Result<Option<Self>, NoMemory> {
        Ok(count(reader))
    }
}

/// A width.
impl Told for u8 {
    ghost told = { λ nodes d. told_width d };

    fn read(
        _alloc: Global,
        _nodes: &[NodeName],
        reader: &mut Reader<'_>,
    ) -> Result<Option<Self>, NoMemory> {
        Ok(width(reader))
    }
}

/// The number of a generator variable.
impl Told for i64 {
    ghost told = { λ nodes d. told_gen_number d };

    fn read(
        _alloc: Global,
        _nodes: &[NodeName],
        reader: &mut Reader<'_>,
    ) -> Result<Option<Self>, NoMemory> {
        Ok(gen_number(reader))
    }
}

impl Told for Text {
    ghost told = { λ nodes d. as_str d };

    fn read(
        alloc: Global,
        _nodes: &[NodeName],
        reader: &mut Reader<'_>,
    ) -> Result<Option<Self>, NoMemory> {
        match read_scalar(reader).text {
            Some(text) => Ok(Some(Text::new(alloc, text.as_bytes())?)),
            None => Ok(None),
        }
    }
}

/// Puts an item behind the others. The list grows by a quarter, so that it never has much more room than items.
pub(crate) fn push_item<T: Drop>(list: &mut Vec<T>, item: T) -> Result<(), NoMemory>
    ensures { OnOk result (list.new.items ≡ list.old.items ++ item ∷ []) }
{
    if list.len() == list.capacity() {
        list.reserve_exact(list.len() / 4 + 1)?;
    }
    list.push(item)?;
    Ok(())
}

/// The entries of a list that are left.
#[tactic(auto, using(crate::proofs::Heads::item_value, crate::proofs::Heads::items_left, crate::proofs::Heads::items_past, crate::proofs::Heads::items_head, crate::proofs::Heads::items_shorter, crate::proofs::Heads::items_end_past, crate::proofs::Heads::items_end_head, crate::proofs::Behind::behind_first, crate::proofs::Behind::behind_none, crate::proofs::Behind::behind_end))]
fn items<T: Told + Drop>(
    alloc: Global,
    nodes: &[NodeName],
    reader: &mut Reader<'_>,
) -> Result<Option<Vec<T>>, NoMemory>
    requires { AreItems reader.old }
    ensures told { IfOk result (λ found. option_map (λ list. list.items) found ≡ told_items (T.told nodes.now) (head_items reader.old)) }
    ensures passed { OnOk result (reader.new ≡ past_items reader.old) }
{
    let mut list = Vec::new(alloc);
    'items: while !reader.take_end_array() {
        let Some(item) = T::read(alloc, nodes, reader)? else {
            pass_items(reader);
            return Ok(None);
        };
        push_item(&mut list, item)?;
    }
    Ok(Some(list))
}

/// A list of any length.
fn list<T: Told + Drop>(
    alloc: Global,
    nodes: &[NodeName],
    reader: &mut Reader<'_>,
) -> Result<Option<Listed<T>>, NoMemory>
    requires { IsValue reader.old }
    ensures told { IfOk result (λ found. found ≡ told_list (T.told nodes.now) (head_value reader.old)) }
    ensures passed { OnOk result (reader.new ≡ past_value reader.old) }
{
    if !opens_list(reader) {
        return Ok(None);
    }
    match items(alloc, nodes, reader)? {
        Some(list) => Ok(Some(Listed::new(list))),
        None => Ok(None),
    }
}

/// A list of fewer than 2^32 entries.
impl<T: Told + Drop> Told for Listed<T> {
    ghost told = { λ nodes d. told_short (T.told nodes) d };

    fn read(
        alloc: Global,
        nodes: &[NodeName],
        reader: &mut Reader<'_>,
    ) -> Result<Option<Self>, NoMemory> {
        let Some(found) = list(alloc, nodes, reader)? else {
            return Ok(None);
        };
        if found.items().len() < 1 << 32 {
            Ok(Some(found))
        } else {
            Ok(None)
        }
    }
}

/// A list of any length.
#[derive(Drop)]
pub struct LongList<T> {
    pub items: Listed<T>,
}

impl<T: Told + Drop> Told for LongList<T> {
    ghost told = { λ nodes d. option_map (λ xs. record { items = xs }) (told_list (T.told nodes) d) };

    fn read(
        alloc: Global,
        nodes: &[NodeName],
        reader: &mut Reader<'_>,
    ) -> Result<Option<Self>, NoMemory> {
        match list(alloc, nodes, reader)? {
            Some(items) => Ok(Some(LongList { items })),
            None => Ok(None),
        }
    }
}

/// How many entries a list has, whatever they are.
#[derive(Clone, Copy)]
pub struct ListLen(pub usize);

/// How many entries of a list are left. As many as 2^64 are told as want of memory: no text has so many.
#[tactic(auto, using(crate::proofs::Heads::item_value, crate::proofs::Heads::items_left, crate::proofs::Heads::items_past, crate::proofs::Heads::items_head, crate::proofs::Heads::items_shorter, crate::proofs::Heads::items_end_past, crate::proofs::Heads::items_end_head))]
fn count_items(reader: &mut Reader<'_>) -> Result<usize, NoMemory>
    requires { AreItems reader.old }
    ensures count { IfOk result (λ count. count ≡ items_len (head_items reader.old)) }
    ensures passed { OnOk result (reader.new ≡ past_items reader.old) }
{
    let mut count: usize = 0;
    'items: while !reader.take_end_array() {
        pass_value(reader);
        count = count.checked_add(1).ok_or(NoMemory)?;
    }
    Ok(count)
}

/// A value that is no list has none.
impl Told for ListLen {
    ghost told = { λ nodes d. Some (record { 0 = list_len d }) };

    fn read(
        _alloc: Global,
        _nodes: &[NodeName],
        reader: &mut Reader<'_>,
    ) -> Result<Option<Self>, NoMemory> {
        if opens_list(reader) {
            Ok(Some(ListLen(count_items(reader)?)))
        } else {
            Ok(Some(ListLen(0)))
        }
    }
}

/// What both entries of a list tell that are left, if there are two.
#[tactic(auto, using(crate::proofs::Heads::item_value, crate::proofs::Heads::items_left, crate::proofs::Heads::items_past, crate::proofs::Heads::items_head, crate::proofs::Heads::items_shorter, crate::proofs::Heads::items_end_past, crate::proofs::Heads::items_end_head))]
fn two<A: Told + Drop, B: Told + Drop>(
    alloc: Global,
    nodes: &[NodeName],
    reader: &mut Reader<'_>,
) -> Result<Option<(A, B)>, NoMemory>
    requires { AreItems reader.old }
    ensures told { IfOk result (λ found. found ≡ told_both (A.told nodes.now) (B.told nodes.now) (head_items reader.old)) }
    ensures passed { OnOk result (reader.new ≡ past_items reader.old) }
{
    if reader.take_end_array() {
        return Ok(None);
    }
    let first: Option<A> = A::read(alloc, nodes, reader)?;
    if reader.take_end_array() {
        return Ok(None);
    }
    let second: Option<B> = B::read(alloc, nodes, reader)?;
    if !reader.take_end_array() {
        pass_items(reader);
        return Ok(None);
    }
    match (first, second) {
        (Some(first), Some(second)) => Ok(Some((first, second))),
        _ => Ok(None),
    }
}

/// What the entries of a list of exactly two tell.
pub(crate) fn pair<A: Told + Drop, B: Told + Drop>(
    alloc: Global,
    nodes: &[NodeName],
    reader: &mut Reader<'_>,
) -> Result<Option<(A, B)>, NoMemory>
    requires { IsValue reader.old }
    ensures told { IfOk result (λ found. found ≡ told_pair (A.told nodes.now) (B.told nodes.now) (head_value reader.old)) }
    ensures passed { OnOk result (reader.new ≡ past_value reader.old) }
{
    if opens_list(reader) {
        two(alloc, nodes, reader)
    } else {
        Ok(None)
    }
}
