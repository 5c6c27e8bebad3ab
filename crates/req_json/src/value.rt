//! What stands in a reply or a notice under a key. Each kind of value is a JSON value of its own, and is written as it stands.

ghost use Rattle.std.specs.Prelude.{◌≡◌, ◌++◌, false, map, IfOk, OnOk};
ghost use Rattle.serde_json.specs.Data.{Data, boolean, number, string};
ghost use Rattle.serde_json.specs.Find.{of_integer};
ghost use Rattle.serde_json.specs.View.{items_of};
ghost use Rattle.serde_json.specs.Written.{comma_if, compact_text, items_text};
ghost use Rattle.bv_core.specs.declared.reference.Sample.{Sample};
ghost use Rattle.bv_core.specs.declared.reference.Sample.TheVariants.{Known};
ghost use Rattle.machine_core.specs.declared.reply.At.{At};
ghost use Rattle.machine_core.specs.declared.reply.At.TheVariants.{Position};
ghost use Rattle.machine_core.specs.declared.reply.Going.{Going};
ghost use Rattle.machine_core.specs.declared.reply.Shown.{Shown};
ghost use Rattle.symtab_json.specs.Files.{count_json, list_json, pair_json};
ghost use Rattle.req_json.specs.Values.{at_json, going_json, position_members, sample_json, shown_json};
ghost use Rattle.req_json.specs.Objects.{member_texts};

use crate::object::{Object, object_of_two};
use bv_core::{Bv, Sample, text_of};
use itoa::Buffer;
use machine_core::{At, Going, Shown};
use std::alloc::Global;
use symtab_json::push_quoted;
use text_core::{Listed, NoMemory, Text};

/// What stands in a reply or a notice.
pub trait Compact {
    ghost tree: { Self → Data };

    /// Adds its compact JSON.
    fn write(&self, alloc: Global, text: &mut Vec<u8>) -> Result<(), NoMemory>
        ensures { OnOk result (text.new.items ≡ text.old.items ++ compact_text (tree self.now)) };
}

/// Adds a whole number.
fn push_count(text: &mut Vec<u8>, number: u64) -> Result<(), NoMemory>
    ensures { OnOk result (text.new.items ≡ text.old.items ++ compact_text (count_json number)) }
{
    text.extend_from_slice(Buffer::new().format(number).as_bytes())?;
    Ok(())
}

/// Adds a comma, unless this is the first.
pub fn push_comma(text: &mut Vec<u8>, later: bool) -> Result<(), NoMemory>
    ensures { OnOk result (text.new.items ≡ text.old.items ++ comma_if later) }
{
    if later {
        text.push(b',')?;
    }
    Ok(())
}

impl Compact for bool {
    ghost tree = { boolean };

    fn write(&self, _alloc: Global, text: &mut Vec<u8>) -> Result<(), NoMemory> {
        if *self {
            text.extend_from_slice(b"true")?;
        } else {
            text.extend_from_slice(b"false")?;
        }
        Ok(())
    }
}

impl Compact for u8 {
    ghost tree = { count_json };

    fn write(&self, _alloc: Global, text: &mut Vec<u8>) -> Result<(), NoMemory> {
        push_count(text, u64::from(*self))
    }
}

impl Compact for u32 {
    ghost tree = { count_json };

    fn write(&self, _alloc: Global, text: &mut Vec<u8>) -> Result<(), NoMemory> {
        push_count(text, u64::from(*self))
    }
}

impl Compact for u64 {
    ghost tree = { count_json };

    fn write(&self, _alloc: Global, text: &mut Vec<u8>) -> Result<(), NoMemory> {
        push_count(text, *self)
    }
}

impl Compact for i64 {
    ghost tree = { λ value. number (of_integer value) };

    fn write(&self, _alloc: Global, text: &mut Vec<u8>) -> Result<(), NoMemory> {
        text.extend_from_slice(Buffer::new().format(*self).as_bytes())?;
        Ok(())
    }
}

impl Compact for Text {
    ghost tree = { string };

    fn write(&self, _alloc: Global, text: &mut Vec<u8>) -> Result<(), NoMemory> {
        push_quoted(text, self.bytes())
    }
}

impl<A: Compact, B: Compact> Compact for (A, B) {
    ghost tree = { λ pair. pair_json (A.tree pair.0) (B.tree pair.1) };

    fn write(&self, alloc: Global, text: &mut Vec<u8>) -> Result<(), NoMemory> {
        text.push(b'[')?;
        self.0.write(alloc, text)?;
        text.push(b',')?;
        self.1.write(alloc, text)?;
        text.push(b']')?;
        Ok(())
    }
}

/// Adds the items of a list, with commas between, and the bracket that closes it.
fn push_items<T: Compact>(alloc: Global, text: &mut Vec<u8>, items: &[T]) -> Result<(), NoMemory>
    ensures { OnOk result (text.new.items ≡ text.old.items ++ items_text false (items_of (map (λ item. T.tree item) items.now))) }
{
    let mut later = false;
    for item in items {
        push_comma(text, later)?;
        item.write(alloc, text)?;
        later = true;
    }
    text.push(b']')?;
    Ok(())
}

impl<T: Compact> Compact for Listed<T> {
    ghost tree = { λ items. list_json (λ item. T.tree item) items };

    fn write(&self, alloc: Global, text: &mut Vec<u8>) -> Result<(), NoMemory> {
        text.push(b'[')?;
        push_items(alloc, text, self.items())
    }
}

/// Adds a value as it is printed.
fn push_bits(alloc: Global, text: &mut Vec<u8>, bits: Bv) -> Result<(), NoMemory>
    ensures { OnOk result (text.new.items ≡ text.old.items ++ compact_text (sample_json (Known bits))) }
{
    push_quoted(text, text_of(alloc, bits)?.as_bytes())
}

impl Compact for Sample {
    ghost tree = { sample_json };

    fn write(&self, alloc: Global, text: &mut Vec<u8>) -> Result<(), NoMemory> {
        match *self {
            Sample::Known(bits) => push_bits(alloc, text, bits),
            Sample::Unknown => push_quoted(text, b"x"),
        }
    }
}

impl Compact for Shown {
    ghost tree = { shown_json };

    fn write(&self, alloc: Global, text: &mut Vec<u8>) -> Result<(), NoMemory> {
        match *self {
            Shown::Value(bits) => push_bits(alloc, text, bits),
            Shown::Unknown => push_quoted(text, b"x"),
            Shown::Unset => push_quoted(text, b"unset"),
            Shown::Removed => push_quoted(text, b"removed"),
        }
    }
}

impl Compact for Going {
    ghost tree = { going_json };

    fn write(&self, _alloc: Global, text: &mut Vec<u8>) -> Result<(), NoMemory> {
        match *self {
            Going::Idle => push_quoted(text, b"idle"),
            Going::Forward => push_quoted(text, b"forward"),
            Going::Backward => push_quoted(text, b"backward"),
        }
    }
}

impl Compact for At {
    ghost tree = { at_json };

    fn write(&self, alloc: Global, text: &mut Vec<u8>) -> Result<(), NoMemory> {
        match *self {
            At::Start => push_quoted(text, b"start"),
            At::End => push_quoted(text, b"end"),
            At::Position { cycle, slot } => push_position(alloc, text, cycle, slot),
        }
    }
}

/// What a position has.
#[tactic(auto, using(crate::proofs::Objects::texts_with, crate::proofs::Objects::texts_none))]
fn position_members(alloc: Global, cycle: u64, slot: u32) -> Result<Object, NoMemory>
    ensures { IfOk result (λ object. object ≡ member_texts (position_members cycle slot)) }
{
    object_of_two(alloc, "cycle", &cycle, "slot", &slot)
}

/// Adds a position.
#[tactic(auto, using(crate::proofs::Objects::object_is))]
fn push_position(alloc: Global, text: &mut Vec<u8>, cycle: u64, slot: u32) -> Result<(), NoMemory>
    ensures { OnOk result (text.new.items ≡ text.old.items ++ compact_text (at_json (Position cycle slot))) }
{
    position_members(alloc, cycle, slot)?.push_to(text)
}
