//! The entries of the lists that a response tells. Each kind of entry is an object of its own.

ghost use Rattle.std.specs.Prelude.{◌≡◌, ◌++◌, ◌∷◌, false, map, IfOk, OnOk};
ghost use Rattle.serde_json.specs.Data.{Data, number};
ghost use Rattle.serde_json.specs.Find.{of_integer};
ghost use Rattle.serde_json.specs.View.{items_of};
ghost use Rattle.serde_json.specs.Written.{compact_text, items_text};
ghost use Rattle.symtab_json.specs.Files.{list_json};
ghost use Rattle.req_json.specs.Objects.{member_texts};
ghost use Rattle.dap_text.specs.Payloads.{digits_json, gen_variable_json, line_set_json, line_set_members, named_members, signal_json, thread_json, thread_members};

use crate::payload::LineSet;
use machine_core::Shown;
use req_json::{Compact, Object, object_of_two, push_comma};
use std::alloc::Global;
use text_core::{Listed, NoMemory, Text};

/// An entry of a list.
pub(crate) trait Row {
    ghost tree: { Self → Data };

    /// Adds its compact JSON.
    fn write_row(&self, alloc: Global, text: &mut Vec<u8>) -> Result<(), NoMemory>
        ensures { OnOk result (text.new.items ≡ text.old.items ++ compact_text (tree self.now)) };
}

/// Adds the entries of a list, with commas between, and the bracket that closes it.
fn push_rows<T: Row>(alloc: Global, text: &mut Vec<u8>, rows: &[T]) -> Result<(), NoMemory>
    ensures { OnOk result (text.new.items ≡ text.old.items ++ items_text false (items_of (map (λ item. T.tree item) rows.now))) }
{
    let mut later = false;
    for row in rows {
        push_comma(text, later)?;
        row.write_row(alloc, text)?;
        later = true;
    }
    text.push(b']')?;
    Ok(())
}

/// The text of a list of entries.
pub(crate) fn rows_text<T: Row>(alloc: Global, rows: &Listed<T>) -> Result<Vec<u8>, NoMemory>
    ensures { IfOk result (λ text. text.items ≡ compact_text (list_json (λ item. T.tree item) rows.now)) }
{
    let mut text = Vec::new(alloc);
    text.push(b'[')?;
    push_rows(alloc, &mut text, rows.items())?;
    Ok(text)
}

/// What the entry of a breakpoint that was set has.
#[tactic(auto, using(req_json::proofs::Objects::texts_with, req_json::proofs::Objects::texts_none))]
fn line_set_members(alloc: Global, set: &LineSet) -> Result<Object, NoMemory>
    ensures { IfOk result (λ object. object ≡ member_texts (line_set_members set.now)) }
{
    match set {
        LineSet::Verified { id, line } => {
            let mut object = object_of_two(alloc, "id", id, "line", line)?;
            object.put(alloc, "verified", &true)?;
            Ok(object)
        }
        LineSet::Unverified { line, name } => {
            let mut object = object_of_two(alloc, "line", line, "message", name)?;
            object.put(alloc, "verified", &false)?;
            Ok(object)
        }
    }
}

/// Adds the entry of a breakpoint that was set.
#[tactic(auto, using(req_json::proofs::Objects::object_is))]
fn push_line_set(alloc: Global, text: &mut Vec<u8>, set: &LineSet) -> Result<(), NoMemory>
    ensures { OnOk result (text.new.items ≡ text.old.items ++ compact_text (line_set_json set.now)) }
{
    line_set_members(alloc, set)?.push_to(text)
}

impl Row for LineSet {
    ghost tree = { line_set_json };

    fn write_row(&self, alloc: Global, text: &mut Vec<u8>) -> Result<(), NoMemory> {
        push_line_set(alloc, text, self)
    }
}

/// What the entry of a thread has.
#[tactic(auto, using(req_json::proofs::Objects::texts_with, req_json::proofs::Objects::texts_none))]
fn thread_members(alloc: Global, thread: &(u64, Text)) -> Result<Object, NoMemory>
    ensures { IfOk result (λ object. object ≡ member_texts (thread_members thread.now)) }
{
    object_of_two(alloc, "id", &thread.0, "name", &thread.1)
}

/// Adds the entry of a thread.
#[tactic(auto, using(req_json::proofs::Objects::object_is))]
fn push_thread(alloc: Global, text: &mut Vec<u8>, thread: &(u64, Text)) -> Result<(), NoMemory>
    ensures { OnOk result (text.new.items ≡ text.old.items ++ compact_text (thread_json thread.now)) }
{
    thread_members(alloc, thread)?.push_to(text)
}

impl Row for (u64, Text) {
    ghost tree = { thread_json };

    fn write_row(&self, alloc: Global, text: &mut Vec<u8>) -> Result<(), NoMemory> {
        push_thread(alloc, text, self)
    }
}

/// What the entry of a name has, with its value.
#[tactic(auto, using(req_json::proofs::Objects::texts_with, req_json::proofs::Objects::texts_none))]
fn named_members<V: Compact>(alloc: Global, name: &Text, value: &V) -> Result<Object, NoMemory>
    ensures { IfOk result (λ object. object ≡ member_texts (named_members name.now (V.tree value.now))) }
{
    let mut object = object_of_two(alloc, "name", name, "value", value)?;
    object.put(alloc, "variablesReference", &0u64)?;
    Ok(object)
}

/// Adds the entry of a name.
#[tactic(auto, using(req_json::proofs::Objects::object_is))]
fn push_signal(alloc: Global, text: &mut Vec<u8>, signal: &(Text, Shown)) -> Result<(), NoMemory>
    ensures { OnOk result (text.new.items ≡ text.old.items ++ compact_text (signal_json signal.now)) }
{
    named_members(alloc, &signal.0, &signal.1)?.push_to(text)
}

impl Row for (Text, Shown) {
    ghost tree = { signal_json };

    fn write_row(&self, alloc: Global, text: &mut Vec<u8>) -> Result<(), NoMemory> {
        push_signal(alloc, text, self)
    }
}

/// A number in decimal digits, as a text.
fn digits_of(alloc: Global, value: i64) -> Result<Text, NoMemory>
    ensures { IfOk result (λ text. text ≡ compact_text (number (of_integer value))) }
{
    let mut digits = Vec::new(alloc);
    value.write(alloc, &mut digits)?;
    Ok(Text::from_bytes(digits))
}

/// Adds the entry of a generator variable.
#[tactic(auto, using(req_json::proofs::Objects::object_is))]
fn push_gen_variable(
    alloc: Global,
    text: &mut Vec<u8>,
    variable: &(Text, i64),
) -> Result<(), NoMemory>
    ensures { OnOk result (text.new.items ≡ text.old.items ++ compact_text (gen_variable_json variable.now)) }
{
    let digits = digits_of(alloc, variable.1)?;
    named_members(alloc, &variable.0, &digits)?.push_to(text)
}

impl Row for (Text, i64) {
    ghost tree = { gen_variable_json };

    fn write_row(&self, alloc: Global, text: &mut Vec<u8>) -> Result<(), NoMemory> {
        push_gen_variable(alloc, text, self)
    }
}
