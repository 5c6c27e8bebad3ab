//! Reads a request.

ghost use Rattle.std.specs.Prelude.{◌≡◌, IfOk, Some, None};
ghost use Rattle.serde_json.specs.View.{view};
ghost use Rattle.req_json.specs.Asked.{IsAsked, asked, asked_row, asked_tree, bad_text, bad_shape, row_in};

use crate::cmd_row::row_in;
use crate::field::{FieldFault, FieldName, optional_whole};
use crate::under::{json_of, text_under};
use machine_core::{Asked, BadText, Request, Utf8};
use serde_json::Value;
use std::alloc::Global;
use text_core::NoMemory;

/// The largest request in bytes.
const MOST_BYTES: usize = 65_536;

/// A text that asks nothing, for a reason that names no field.
fn bad_text(code: u8, id: Option<u64>) -> Asked
    ensures { result ≡ bad_text code id None }
{
    Asked::Bad(BadText {
        code,
        id,
        field: None,
    })
}

/// A text that has this field wrong.
fn bad_shape(alloc: Global, id: Option<u64>, field: FieldName) -> Result<Asked, NoMemory>
    ensures { IfOk result (λ asked. asked ≡ bad_shape id field) }
{
    let name = Utf8::new(String::from_str(alloc, field.text())?);
    Ok(Asked::Bad(BadText {
        code: 3,
        id,
        field: Some(name),
    }))
}

/// What an object with this word for its command asks.
fn asked_word(alloc: Global, id: Option<u64>, value: &Value, word: &str) -> Result<Asked, NoMemory>
    ensures { IfOk result (λ asked. asked ≡ asked_row id (row_in word.now (view value.now))) }
{
    match row_in(alloc, word, value) {
        Ok(Some(cmd)) => Ok(Asked::Good(Request { id, cmd })),
        Ok(None) => Ok(bad_text(4, id)),
        Err(FieldFault::Wrong(field)) => bad_shape(alloc, id, field),
        Err(FieldFault::NoMemory) => Err(NoMemory),
    }
}

/// What an object asks.
fn asked_tree(alloc: Global, value: &Value) -> Result<Asked, NoMemory>
    ensures { IfOk result (λ asked. asked ≡ asked_tree (view value.now)) }
{
    if !value.is_object() {
        return bad_shape(alloc, None, FieldName::Whole);
    }
    let Some(id) = optional_whole(value, FieldName::Id) else {
        return bad_shape(alloc, None, FieldName::Id);
    };
    match text_under(value, FieldName::Cmd.text()) {
        Some(word) => asked_word(alloc, id, value, word),
        None => bad_shape(alloc, id, FieldName::Cmd),
    }
}

/// What these bytes ask: a command with its fields, or the first reason why they ask nothing. These are, in order: 1, they are more
/// than 65,536; 2, they are no UTF-8, or no JSON value that nests at most 127 deep; 3, they are no object, or the `id` or the `cmd` is
/// wrong; 4, the command is not known; 3, another field is wrong. Fails only where memory runs out.
pub fn read_request(alloc: Global, text: &[u8]) -> Result<Asked, NoMemory>
    ensures asked { IfOk result (λ found. found ≡ asked text.now) }
    ensures kept { IfOk result IsAsked }
{
    if text.len() > MOST_BYTES {
        return Ok(bad_text(1, None));
    }
    match json_of(alloc, text)? {
        Some(value) => asked_tree(alloc, &value),
        None => Ok(bad_text(2, None)),
    }
}
