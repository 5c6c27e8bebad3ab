//! What a text is in JSON, and what stands under a key of it: of any key, whatever reads it.

ghost use Rattle.std.specs.Prelude.{◌≡◌, IfOk, option_map};
ghost use Rattle.serde_json.specs.Find.{as_str, get};
ghost use Rattle.serde_json.specs.View.{view};
ghost use Rattle.symtab_json.specs.Entries.{told_count, told_member};
ghost use Rattle.symtab_json.specs.Told.{json_of};
ghost use Rattle.req_json.specs.Fields.{optional};

use machine_core::Utf8;
use serde_json::Value;
use std::alloc::Global;
use text_core::NoMemory;

/// The JSON value of a text: UTF-8 that nests at most 127 deep. None where it is none. Fails only where memory runs out.
pub fn json_of(alloc: Global, text: &[u8]) -> Result<Option<Value>, NoMemory>
    ensures { IfOk result (λ value. option_map view value ≡ json_of text.now) }
{
    match Value::from_slice(alloc, text) {
        Ok(value) => Ok(Some(value)),
        Err(e) => {
            if e.is_memory() {
                Err(NoMemory)
            } else {
                Ok(None)
            }
        }
    }
}

/// The whole number from 0 to 2^64-1 under a key; None where none is there. Takes no memory.
pub fn count_under(value: &Value, key: &str) -> Option<u64>
    ensures { result ≡ told_member told_count key.now (view value.now) }
{
    value.get(key).and_then(Value::as_u64)
}

/// The text under a key; None where none is there. Takes no memory.
pub fn text_under<'a>(value: &'a Value, key: &str) -> Option<&'a str>
    ensures { option_map (λ text. text.now) result ≡ told_member as_str key.now (view value.now) }
{
    value.get(key).and_then(Value::as_str)
}

/// A text under a key that may be left out: null stands for one that is. None where something else is there.
pub fn optional_text_under(
    alloc: Global,
    value: &Value,
    key: &str,
) -> Result<Option<Option<Utf8>>, NoMemory>
    ensures { IfOk result (λ text. text ≡ optional as_str (get key.now (view value.now))) }
{
    match value.get(key) {
        None => Ok(Some(None)),
        Some(found) => {
            if found.is_null() {
                return Ok(Some(None));
            }
            match found.as_str() {
                Some(text) => Ok(Some(Some(Utf8::new(String::from_str(alloc, text)?)))),
                None => Ok(None),
            }
        }
    }
}
