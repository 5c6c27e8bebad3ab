//! Writes the messages to an editor: responses and events, each behind its head.

ghost use Rattle.std.specs.Prelude.{◌≡◌, Some, IfOk, OnOk, option_map};
ghost use Rattle.symtab_json.specs.Files.{list_json};
ghost use Rattle.req_json.specs.Objects.{member_texts, object_text, one_member};
ghost use Rattle.dap_text.specs.Payloads.{failure_in, happening_body, happening_word, payload_body};
ghost use Rattle.dap_text.specs.declared.payload.Payload.TheVariants.{Abilities, Continued, Scopes, StackFrame};
ghost use Rattle.dap_text.specs.Texts.{body_texts, event_members, event_text, framed_text, plain_members, response_members, response_text};

use crate::object::{
    edge_members, frames_text, put_object, reason_word, scopes_text, stop_members,
};
use crate::payload::{Happening, Payload};
use crate::row::{Row, rows_text};
use req_json::{Compact, Object, object_of_one, object_of_two};
use std::alloc::Global;
use text_core::{Listed, NoMemory, Text};

/// What the adapter can do.
#[tactic(auto, using(req_json::proofs::Objects::texts_with, req_json::proofs::Objects::texts_none))]
fn abilities(alloc: Global) -> Result<Object, NoMemory>
    ensures { IfOk result (λ object. Some object ≡ option_map member_texts (payload_body Abilities)) }
{
    let mut object = object_of_two(
        alloc,
        "supportsConditionalBreakpoints",
        &true,
        "supportsConfigurationDoneRequest",
        &true,
    )?;
    object.put(alloc, "supportsStepBack", &true)?;
    Ok(object)
}

/// That all threads went on.
fn continued(alloc: Global) -> Result<Object, NoMemory>
    ensures { IfOk result (λ object. Some object ≡ option_map member_texts (payload_body Continued)) }
{
    let object = object_of_one(alloc, "allThreadsContinued", &true)?;
    Ok(object)
}

/// An object of one list.
#[tactic(auto, using(req_json::proofs::Objects::texts_with, req_json::proofs::Objects::texts_none))]
fn list_object<T: Row>(alloc: Global, key: &str, rows: &Listed<T>) -> Result<Object, NoMemory>
    ensures { IfOk result (λ object. object ≡ member_texts (one_member key.now (list_json (λ item. T.tree item) rows.now))) }
{
    let text = rows_text(alloc, rows)?;
    let mut object = Object::new(alloc);
    object.put_written(alloc, key, text)?;
    Ok(object)
}

/// What tells where a thread stands.
#[tactic(auto, using(req_json::proofs::Objects::texts_with, req_json::proofs::Objects::texts_none))]
fn stack_object(
    alloc: Global,
    id: u64,
    line: u32,
    name: &Text,
    file: &Text,
) -> Result<Object, NoMemory>
    ensures { IfOk result (λ object. Some object ≡ option_map member_texts (payload_body (StackFrame id line name.now file.now))) }
{
    let frames = frames_text(alloc, id, line, name, file)?;
    let mut object = Object::new(alloc);
    object.put_written(alloc, "stackFrames", frames)?;
    object.put(alloc, "totalFrames", &1u64)?;
    Ok(object)
}

/// What tells what a thread has to look into.
#[tactic(auto, using(req_json::proofs::Objects::texts_with, req_json::proofs::Objects::texts_none))]
fn scopes_object(alloc: Global, signals: u64, gens: u64) -> Result<Object, NoMemory>
    ensures { IfOk result (λ object. Some object ≡ option_map member_texts (payload_body (Scopes signals gens))) }
{
    let scopes = scopes_text(alloc, signals, gens)?;
    let mut object = Object::new(alloc);
    object.put_written(alloc, "scopes", scopes)?;
    Ok(object)
}

/// The body of a response, where it has one.
#[tactic(auto, using(req_json::proofs::Objects::texts_with, req_json::proofs::Objects::texts_none))]
fn payload_body(alloc: Global, payload: &Payload) -> Result<Option<Object>, NoMemory>
    ensures { IfOk result (λ body. body ≡ option_map member_texts (payload_body payload.now)) }
{
    match payload {
        Payload::Empty => Ok(None),
        Payload::Abilities => Ok(Some(abilities(alloc)?)),
        Payload::Breakpoints { lines } => Ok(Some(list_object(alloc, "breakpoints", lines)?)),
        Payload::Continued => Ok(Some(continued(alloc)?)),
        Payload::Threads { threads } => Ok(Some(list_object(alloc, "threads", threads)?)),
        Payload::StackFrame {
            id,
            line,
            name,
            file,
        } => Ok(Some(stack_object(alloc, *id, *line, name, file)?)),
        Payload::Scopes { signals, gens } => Ok(Some(scopes_object(alloc, *signals, *gens)?)),
        Payload::Signals { shown } => Ok(Some(list_object(alloc, "variables", shown)?)),
        Payload::GenVariables { gens } => Ok(Some(list_object(alloc, "variables", gens)?)),
        Payload::Result { value } => Ok(Some(object_of_two(
            alloc,
            "result",
            value,
            "variablesReference",
            &0u64,
        )?)),
        Payload::Failed { .. } => Ok(None),
    }
}

/// The name of the refusal of a response that failed.
fn failure_in(payload: &Payload) -> Option<&Text>
    ensures { option_map (λ name. name.now) result ≡ failure_in payload.now }
{
    match payload {
        Payload::Failed { name } => Some(name),
        _ => None,
    }
}

/// Puts a body in, where there is one.
fn put_body(alloc: Global, object: &mut Object, body: &Option<Object>) -> Result<(), NoMemory>
    ensures { OnOk result (object.new ≡ body_texts body.now object.old) }
{
    if let Some(body) = body {
        put_object(alloc, object, "body", body)?;
    }
    Ok(())
}

/// What a response has beside its body and the name of a refusal.
#[tactic(auto, using(req_json::proofs::Objects::texts_with, req_json::proofs::Objects::texts_none))]
fn plain_members(
    alloc: Global,
    seq: u64,
    request_seq: u64,
    command: &str,
    success: bool,
) -> Result<Object, NoMemory>
    ensures { IfOk result (λ object. object ≡ member_texts (plain_members seq request_seq command.now success)) }
{
    let mut object = Object::new(alloc);
    object.put_word(alloc, "command", command)?;
    object.put(alloc, "request_seq", &request_seq)?;
    object.put(alloc, "seq", &seq)?;
    object.put(alloc, "success", &success)?;
    object.put_word(alloc, "type", "response")?;
    Ok(object)
}

/// What a response has.
#[tactic(auto, using(req_json::proofs::Objects::texts_with, crate::proofs::Bodies::texts_body))]
fn response_members(
    alloc: Global,
    seq: u64,
    request_seq: u64,
    command: &str,
    payload: &Payload,
) -> Result<Object, NoMemory>
    ensures { IfOk result (λ object. object ≡ member_texts (response_members seq request_seq command.now payload.now)) }
{
    let body = payload_body(alloc, payload)?;
    let failure = failure_in(payload);
    let mut object = plain_members(alloc, seq, request_seq, command, failure.is_none())?;
    if let Some(name) = failure {
        object.put(alloc, "message", name)?;
    }
    put_body(alloc, &mut object, &body)?;
    Ok(object)
}

/// A message to an editor: the head that tells its length, and its body.
fn framed(alloc: Global, body: &[u8]) -> Result<Vec<u8>, NoMemory>
    ensures { IfOk result (λ text. text.items ≡ framed_text body.now) }
{
    let mut text = Vec::new(alloc);
    text.extend_from_slice(b"Content-Length: ")?;
    (body.len() as u64).write(alloc, &mut text)?;
    text.extend_from_slice(b"\r\n\r\n")?;
    text.extend_from_slice(body)?;
    Ok(text)
}

/// The text of an object behind its head.
fn framed_object(alloc: Global, object: &Object) -> Result<Vec<u8>, NoMemory>
    ensures { IfOk result (λ text. text.items ≡ framed_text (object_text object.now)) }
{
    let mut body = Vec::new(alloc);
    object.push_to(&mut body)?;
    framed(alloc, &body)
}

/// The text of a response, of this number, to a message of such a number and command: a head that tells its length, and compact JSON
/// whose keys stand in the order of their bytes. Fails only where memory runs out.
#[tactic(auto, using(req_json::proofs::Objects::object_is))]
pub fn response_text(
    alloc: Global,
    seq: u64,
    request_seq: u64,
    command: &str,
    payload: &Payload,
) -> Result<Vec<u8>, NoMemory>
    ensures { IfOk result (λ text. text.items ≡ response_text seq request_seq command.now payload.now) }
{
    let object = response_members(alloc, seq, request_seq, command, payload)?;
    framed_object(alloc, &object)
}

/// The name of an event.
fn happening_word(happening: Happening) -> &'static str
    ensures { result.now ≡ happening_word happening }
{
    match happening {
        Happening::Initialized => "initialized",
        Happening::Stopped { .. } | Happening::Ended | Happening::Started => "stopped",
    }
}

/// The body of an event, where it has one.
fn happening_body(alloc: Global, happening: Happening) -> Result<Option<Object>, NoMemory>
    ensures { IfOk result (λ body. body ≡ option_map member_texts (happening_body happening)) }
{
    match happening {
        Happening::Initialized => Ok(None),
        Happening::Stopped { reason, thread } => {
            Ok(Some(stop_members(alloc, reason_word(reason), thread)?))
        }
        Happening::Ended => Ok(Some(edge_members(alloc, "end of run")?)),
        Happening::Started => Ok(Some(edge_members(alloc, "start of run")?)),
    }
}

/// What an event has.
#[tactic(auto, using(req_json::proofs::Objects::texts_with, req_json::proofs::Objects::texts_none, crate::proofs::Bodies::texts_body))]
fn event_members(alloc: Global, seq: u64, happening: Happening) -> Result<Object, NoMemory>
    ensures { IfOk result (λ object. object ≡ member_texts (event_members seq happening)) }
{
    let body = happening_body(alloc, happening)?;
    let mut object = Object::new(alloc);
    object.put_word(alloc, "event", happening_word(happening))?;
    object.put(alloc, "seq", &seq)?;
    object.put_word(alloc, "type", "event")?;
    put_body(alloc, &mut object, &body)?;
    Ok(object)
}

/// The text of an event, of this number: a head that tells its length, and compact JSON whose keys stand in the order of their bytes.
/// Fails only where memory runs out.
#[tactic(auto, using(req_json::proofs::Objects::object_is))]
pub fn event_text(alloc: Global, seq: u64, happening: Happening) -> Result<Vec<u8>, NoMemory>
    ensures { IfOk result (λ text. text.items ≡ event_text seq happening) }
{
    let object = event_members(alloc, seq, happening)?;
    framed_object(alloc, &object)
}
