//! The fields of requests, and what each kind of field tells.

ghost use Rattle.std.specs.Prelude.{◌≡◌, ◌<◌, Ok, IfOk, IfErr, option_map};
ghost use Rattle.serde_json.specs.Find.{get};
ghost use Rattle.serde_json.specs.View.{view};
ghost use Rattle.symtab_json.specs.Entries.{told_count};
ghost use Rattle.req_json.specs.declared.field.FieldFault.TheVariants.{NoMemory};
ghost use Rattle.req_json.specs.Fields.{field_key, file_number, IsWrong, optional, optional_text, required_below, required_text, under, required_count, required_place};

use crate::under::{count_under, optional_text_under, text_under};
use machine_core::Utf8;
use places::{FILES_MAX, place};
use serde_json::Value;
use std::alloc::{AllocError, Global};

/// So many files may be named.
const MOST_FILES: u64 = FILES_MAX as u64;

/// The lines of a file are below this.
const MOST_LINES: u64 = 1 << 24;

/// A field of a request; or the whole of it.
#[derive(Clone, Copy, PartialEq, Eq)]
pub enum FieldName {
    Whole,
    Id,
    Cmd,
    File,
    Line,
    Instance,
    Cond,
    Bp,
    Wp,
    Expr,
    K,
}

impl FieldName {
    /// Its key; no text for the whole.
    pub(crate) fn text(self) -> &'static str
        ensures { result.now ≡ field_key self }
    {
        match self {
            FieldName::Whole => "",
            FieldName::Id => "id",
            FieldName::Cmd => "cmd",
            FieldName::File => "file",
            FieldName::Line => "line",
            FieldName::Instance => "instance",
            FieldName::Cond => "cond",
            FieldName::Bp => "bp",
            FieldName::Wp => "wp",
            FieldName::Expr => "expr",
            FieldName::K => "k",
        }
    }
}

/// Why a field tells nothing.
#[derive(Clone, Copy, PartialEq, Eq)]
pub enum FieldFault {
    NoMemory,
    /// It has not its kind or is missing.
    Wrong(FieldName),
}

impl From<AllocError> for FieldFault {
    ghost from_gives = { λ _ fault. fault ≡ NoMemory };

    fn from(_: AllocError) -> Self {
        FieldFault::NoMemory
    }
}

/// A whole number that must be there.
pub(crate) fn required_count(value: &Value, field: FieldName) -> Result<u64, FieldFault>
    ensures ok { IfOk result (λ number. required_count field (view value.now) ≡ Ok number) }
    ensures err { IfErr result (IsWrong (required_count field (view value.now))) }
{
    count_under(value, field.text()).ok_or(FieldFault::Wrong(field))
}

/// A whole number below a bound that must be there.
fn required_below(value: &Value, most: u64, field: FieldName) -> Result<u64, FieldFault>
    ensures ok { IfOk result (λ number. required_below most field (view value.now) ≡ Ok number) }
    ensures err { IfErr result (IsWrong (required_below most field (view value.now))) }
    ensures below { IfOk result (λ number. number < most) }
{
    match count_under(value, field.text()) {
        Some(number) if number < most => Ok(number),
        _ => Err(FieldFault::Wrong(field)),
    }
}

/// A whole number that may be left out; None where it is wrong.
pub(crate) fn optional_whole(value: &Value, field: FieldName) -> Option<Option<u64>>
    ensures { result ≡ optional told_count (under field (view value.now)) }
{
    match value.get(field.text()) {
        None => Some(None),
        Some(found) => {
            if found.is_null() {
                Some(None)
            } else {
                found.as_u64().map(Some)
            }
        }
    }
}

/// The number of a file, from 0 to 63; 0 where it is left out.
fn file_number(value: &Value) -> Result<u64, FieldFault>
    ensures ok { IfOk result (λ file. file_number (view value.now) ≡ Ok file) }
    ensures err { IfErr result (IsWrong (file_number (view value.now))) }
    ensures below { IfOk result (λ file. file < 64) }
{
    match optional_whole(value, FieldName::File) {
        Some(None) => Ok(0),
        Some(Some(file)) if file < MOST_FILES => Ok(file),
        _ => Err(FieldFault::Wrong(FieldName::File)),
    }
}

/// A line that must be there, of a file that may be left out, as one number: a place.
pub(crate) fn required_place(value: &Value) -> Result<u64, FieldFault>
    ensures ok { IfOk result (λ place. required_place (view value.now) ≡ Ok place) }
    ensures err { IfErr result (IsWrong (required_place (view value.now))) }
{
    let file = file_number(value)?;
    let line = required_below(value, MOST_LINES, FieldName::Line)?;
    Ok(u64::from(place(file as u32, line as u32)))
}

/// A text that must be there.
pub(crate) fn required_text(
    alloc: Global,
    value: &Value,
    field: FieldName,
) -> Result<Utf8, FieldFault>
    ensures ok { IfOk result (λ text. required_text field (view value.now) ≡ Ok text) }
    ensures err { IfErr result (IsWrong (required_text field (view value.now))) }
{
    match text_under(value, field.text()) {
        Some(found) => Ok(Utf8::new(String::from_str(alloc, found)?)),
        None => Err(FieldFault::Wrong(field)),
    }
}

/// A text that may be left out.
pub(crate) fn optional_text(
    alloc: Global,
    value: &Value,
    field: FieldName,
) -> Result<Option<Utf8>, FieldFault>
    ensures ok { IfOk result (λ text. optional_text field (view value.now) ≡ Ok text) }
    ensures err { IfErr result (IsWrong (optional_text field (view value.now))) }
{
    match optional_text_under(alloc, value, field.text()) {
        Ok(Some(text)) => Ok(text),
        Ok(None) => Err(FieldFault::Wrong(field)),
        Err(_) => Err(FieldFault::NoMemory),
    }
}
