//! The objects that stand once in a response or an event.

ghost use Rattle.std.specs.Prelude.{◌≡◌, ◌++◌, IfOk, OnOk};
ghost use Rattle.serde_json.specs.Data.{object};
ghost use Rattle.serde_json.specs.Written.{compact_text};
ghost use Rattle.req_json.specs.Objects.{member_texts, object_text, put_text};
ghost use Rattle.dap_text.specs.Payloads.{edge_members, frame_members, line_members, reason_word, scope_members, scopes_json, single_json, source_members, stop_members};

use crate::payload::Reason;
use req_json::{Object, object_of_one, object_of_two};
use std::alloc::Global;
use text_core::{NoMemory, Text};

/// Puts an object in.
pub(crate) fn put_object(
    alloc: Global,
    object: &mut Object,
    key: &str,
    inner: &Object,
) -> Result<(), NoMemory>
    ensures { OnOk result (object.new ≡ put_text key.now (object_text inner.now) object.old) }
{
    let mut text = Vec::new(alloc);
    inner.push_to(&mut text)?;
    object.put_written(alloc, key, text)
}

/// What tells a file.
#[tactic(auto, using(req_json::proofs::Objects::texts_with, req_json::proofs::Objects::texts_none))]
fn source_members(alloc: Global, file: &Text) -> Result<Object, NoMemory>
    ensures { IfOk result (λ object. object ≡ member_texts (source_members file.now)) }
{
    object_of_one(alloc, "name", file)
}

/// What tells where a thread stands, but for the file.
#[tactic(auto, using(req_json::proofs::Objects::texts_with, req_json::proofs::Objects::texts_none))]
fn line_members(alloc: Global, id: u64, line: u32, name: &Text) -> Result<Object, NoMemory>
    ensures { IfOk result (λ object. object ≡ member_texts (line_members id line name.now)) }
{
    let mut object = object_of_two(alloc, "column", &1u64, "id", &id)?;
    object.put(alloc, "line", &line)?;
    object.put(alloc, "name", name)?;
    Ok(object)
}

/// What tells where a thread stands.
#[tactic(auto, using(req_json::proofs::Objects::texts_with, req_json::proofs::Objects::object_is))]
fn frame_members(
    alloc: Global,
    id: u64,
    line: u32,
    name: &Text,
    file: &Text,
) -> Result<Object, NoMemory>
    ensures { IfOk result (λ object. object ≡ member_texts (frame_members id line name.now file.now)) }
{
    let mut object = line_members(alloc, id, line, name)?;
    let source = source_members(alloc, file)?;
    put_object(alloc, &mut object, "source", &source)?;
    Ok(object)
}

/// The text of a list of one frame.
#[tactic(auto, using(req_json::proofs::Objects::object_is))]
pub(crate) fn frames_text(
    alloc: Global,
    id: u64,
    line: u32,
    name: &Text,
    file: &Text,
) -> Result<Vec<u8>, NoMemory>
    ensures { IfOk result (λ text. text.items ≡ compact_text (single_json (object (frame_members id line name.now file.now)))) }
{
    let frame = frame_members(alloc, id, line, name, file)?;
    let mut text = Vec::new(alloc);
    text.push(b'[')?;
    frame.push_to(&mut text)?;
    text.push(b']')?;
    Ok(text)
}

/// What tells what a thread has to look into.
#[tactic(auto, using(req_json::proofs::Objects::texts_with, req_json::proofs::Objects::texts_none))]
fn scope_members(alloc: Global, name: &str, reference: u64) -> Result<Object, NoMemory>
    ensures { IfOk result (λ object. object ≡ member_texts (scope_members name.now reference)) }
{
    let mut object = Object::new(alloc);
    object.put(alloc, "expensive", &false)?;
    object.put_word(alloc, "name", name)?;
    object.put(alloc, "variablesReference", &reference)?;
    Ok(object)
}

/// Adds what tells what a thread has to look into.
#[tactic(auto, using(req_json::proofs::Objects::object_is))]
fn push_scope(alloc: Global, text: &mut Vec<u8>, name: &str, reference: u64) -> Result<(), NoMemory>
    ensures { OnOk result (text.new.items ≡ text.old.items ++ compact_text (object (scope_members name.now reference))) }
{
    scope_members(alloc, name, reference)?.push_to(text)
}

/// The text of the list of what a thread has to look into.
pub(crate) fn scopes_text(alloc: Global, signals: u64, gens: u64) -> Result<Vec<u8>, NoMemory>
    ensures { IfOk result (λ text. text.items ≡ compact_text (scopes_json signals gens)) }
{
    let mut text = Vec::new(alloc);
    text.push(b'[')?;
    push_scope(alloc, &mut text, "Signals", signals)?;
    text.push(b',')?;
    push_scope(alloc, &mut text, "Generator", gens)?;
    text.push(b']')?;
    Ok(text)
}

/// Why it stopped, in a word.
pub(crate) fn reason_word(reason: Reason) -> &'static str
    ensures { result.now ≡ reason_word reason }
{
    match reason {
        Reason::Breakpoint => "breakpoint",
        Reason::Step => "step",
    }
}

/// What tells a stop.
#[tactic(auto, using(req_json::proofs::Objects::texts_with, req_json::proofs::Objects::texts_none))]
pub(crate) fn stop_members(alloc: Global, reason: &str, thread: u64) -> Result<Object, NoMemory>
    ensures { IfOk result (λ object. object ≡ member_texts (stop_members reason.now thread)) }
{
    let mut object = object_of_one(alloc, "allThreadsStopped", &true)?;
    object.put_word(alloc, "reason", reason)?;
    object.put(alloc, "threadId", &thread)?;
    Ok(object)
}

/// What tells the end of the run, or its start.
#[tactic(auto, using(req_json::proofs::Objects::texts_with, req_json::proofs::Objects::texts_none))]
pub(crate) fn edge_members(alloc: Global, edge: &str) -> Result<Object, NoMemory>
    ensures { IfOk result (λ object. object ≡ member_texts (edge_members edge.now)) }
{
    let mut object = object_of_one(alloc, "allThreadsStopped", &true)?;
    object.put_word(alloc, "description", edge)?;
    object.put_word(alloc, "reason", "pause")?;
    Ok(object)
}
