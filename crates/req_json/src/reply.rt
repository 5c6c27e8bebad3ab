//! Writes a reply.

ghost use Rattle.std.specs.Prelude.{◌≡◌, IfOk, option_map};
ghost use Rattle.req_json.specs.Objects.{member_texts};
ghost use Rattle.req_json.specs.Replies.{body_members, own_members, body_refusal, reply_members, reply_text};
ghost use Rattle.machine_core.specs.declared.reply.Body.TheVariants.{NoSite, Status, Threads};

use crate::object::{Object, object_of_one, object_of_two};
use machine_core::{At, Body, Going, Reply};
use std::alloc::Global;
use text_core::{Listed, NoMemory, Text};

/// The code and the name of a refusal; None of what was accepted. Takes no memory.
pub fn body_refusal(body: &Body) -> Option<(u8, &'static str)>
    ensures { option_map (λ refusal. (refusal.0, refusal.1.now)) result ≡ body_refusal body.now }
{
    match body {
        Body::TooLong => Some((1, "TooLong")),
        Body::NotJson => Some((2, "NotJson")),
        Body::BadShape { .. } => Some((3, "BadShape")),
        Body::UnknownCmd => Some((4, "UnknownCmd")),
        Body::NoSite { .. } => Some((5, "NoSite")),
        Body::NoInstance { .. } => Some((6, "NoInstance")),
        Body::BadCondAt { .. } | Body::BadCondName { .. } => Some((7, "BadCond")),
        Body::CondRemoved { .. } => Some((8, "CondRemoved")),
        Body::CondUnset { .. } => Some((9, "CondUnset")),
        Body::Busy { .. } => Some((10, "Busy")),
        Body::NotRunning => Some((11, "NotRunning")),
        Body::NoStop { .. } => Some((12, "NoStop")),
        Body::TooMany { .. } => Some((13, "TooMany")),
        Body::NoBreakpoint { .. } => Some((14, "NoBreakpoint")),
        Body::NoListener { .. } => Some((15, "NoListener")),
        Body::TooManyWatches { .. } => Some((16, "TooManyWatches")),
        Body::NoWatch { .. } => Some((17, "NoWatch")),
        _ => None,
    }
}

/// What the answer has that tells of a stop.
#[tactic(auto, using(crate::proofs::Objects::texts_with, crate::proofs::Objects::texts_none, crate::proofs::Objects::texts_place))]
fn threads_members(
    alloc: Global,
    at: At,
    gens: &Listed<(Text, i64)>,
    line: u32,
    threads: &Listed<Text>,
) -> Result<Object, NoMemory>
    ensures { IfOk result (λ object. object ≡ member_texts (own_members (Threads at gens.now line threads.now))) }
{
    let mut object = object_of_two(alloc, "at", &at, "gens", gens)?;
    object.put_place(alloc, u64::from(line))?;
    object.put(alloc, "threads", threads)?;
    Ok(object)
}

/// What the answer has that tells of a session.
#[tactic(auto, using(crate::proofs::Objects::texts_with, crate::proofs::Objects::texts_none))]
fn status_members(
    alloc: Global,
    at: At,
    bps: &Listed<u64>,
    listeners: &Listed<u32>,
    mode: Going,
) -> Result<Object, NoMemory>
    ensures { IfOk result (λ object. object ≡ member_texts (own_members (Status at bps.now listeners.now mode))) }
{
    let mut object = object_of_two(alloc, "at", &at, "bps", bps)?;
    object.put(alloc, "listeners", listeners)?;
    object.put(alloc, "mode", &mode)?;
    Ok(object)
}

/// What the answer has that no statement stands at a place.
#[tactic(auto, using(crate::proofs::Objects::texts_none, crate::proofs::Objects::texts_place))]
fn site_members(alloc: Global, line: u64) -> Result<Object, NoMemory>
    ensures { IfOk result (λ object. object ≡ member_texts (own_members (NoSite line))) }
{
    let mut object = Object::new(alloc);
    object.put_place(alloc, line)?;
    Ok(object)
}

/// What each answer has of its own.
#[tactic(auto, using(crate::proofs::Objects::texts_with, crate::proofs::Objects::texts_none))]
fn own_members(alloc: Global, body: &Body) -> Result<Object, NoMemory>
    ensures { IfOk result (λ object. object ≡ member_texts (own_members body.now)) }
{
    match body {
        Body::Break { bp, slots } => object_of_two(alloc, "bp", bp, "slots", slots),
        Body::Watch { slots, wp } => object_of_two(alloc, "slots", slots, "wp", wp),
        Body::Pause { at } | Body::NoStop { at } => object_of_one(alloc, "at", at),
        Body::Threads {
            at,
            gens,
            line,
            threads,
        } => threads_members(alloc, *at, gens, *line, threads),
        Body::Values { values } => object_of_one(alloc, "values", values),
        Body::Eval { value } => object_of_one(alloc, "value", value),
        Body::Drop { rows } => object_of_one(alloc, "rows", rows),
        Body::Status {
            at,
            bps,
            listeners,
            mode,
        } => status_members(alloc, *at, bps, listeners, *mode),
        Body::BadShape { field } => object_of_one(alloc, "field", field),
        Body::NoSite { line } => site_members(alloc, *line),
        Body::NoInstance { instance } => object_of_one(alloc, "instance", instance),
        Body::BadCondAt { offset } => object_of_one(alloc, "offset", offset),
        Body::BadCondName { name } => object_of_one(alloc, "name", name),
        Body::CondRemoved { name, slot } | Body::CondUnset { name, slot } => {
            object_of_two(alloc, "name", name, "slot", slot)
        }
        Body::Busy { mode } => object_of_one(alloc, "mode", mode),
        Body::TooMany { limit } => object_of_one(alloc, "limit", limit),
        Body::NoBreakpoint { bp } => object_of_one(alloc, "bp", bp),
        Body::NoListener { k } => object_of_one(alloc, "k", k),
        Body::TooManyWatches { limit } => object_of_one(alloc, "limit", limit),
        Body::NoWatch { wp } => object_of_one(alloc, "wp", wp),
        _ => Ok(Object::new(alloc)),
    }
}

/// What each answer has, with whether it was accepted.
#[tactic(auto, using(crate::proofs::Objects::texts_with))]
fn body_members(alloc: Global, body: &Body) -> Result<Object, NoMemory>
    ensures { IfOk result (λ object. object ≡ member_texts (body_members body.now)) }
{
    let mut object = own_members(alloc, body)?;
    match body_refusal(body) {
        None => {
            object.put(alloc, "ok", &true)?;
            Ok(object)
        }
        Some((code, name)) => {
            object.put(alloc, "code", &code)?;
            object.put_word(alloc, "error", name)?;
            object.put(alloc, "ok", &false)?;
            Ok(object)
        }
    }
}

/// What a reply has.
#[tactic(auto, using(crate::proofs::Objects::texts_with))]
fn reply_members(alloc: Global, reply: &Reply) -> Result<Object, NoMemory>
    ensures { IfOk result (λ object. object ≡ member_texts (reply_members reply.now)) }
{
    let mut object = body_members(alloc, &reply.body)?;
    if let Some(id) = reply.id {
        object.put(alloc, "id", &id)?;
    }
    object.put(alloc, "seq", &reply.seq)?;
    Ok(object)
}

/// The text of a reply: compact JSON, with the keys in the order of their bytes. Fails only where memory runs out.
#[tactic(auto, using(crate::proofs::Objects::object_is))]
pub fn reply_text(alloc: Global, reply: &Reply) -> Result<Vec<u8>, NoMemory>
    ensures { IfOk result (λ text. text.items ≡ reply_text reply.now) }
{
    let object = reply_members(alloc, reply)?;
    let mut text = Vec::new(alloc);
    object.push_to(&mut text)?;
    Ok(text)
}
