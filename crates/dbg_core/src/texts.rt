//! Texts of requests, as they are answered.

ghost use Rattle.std.specs.Prelude.{◌≡◌, [], IfOk, option_map, unwrap_or};
ghost use Rattle.machine_core.specs.Machine.{text_refusal};

use machine_core::{BadText, Body, Utf8};
use std::alloc::Global;
use text_core::{NoMemory, Text};

/// A text, if there is one.
pub(crate) fn text_in(text: &Option<Utf8>) -> Option<&str>
    ensures { option_map (λ t. t.now) result ≡ text.now }
{
    match text {
        Some(text) => Some(text.text()),
        None => None,
    }
}

/// The bytes of a text, if there is one.
pub(crate) fn bytes_in(text: &Option<Utf8>) -> Option<&[u8]>
    ensures { option_map (λ t. t.now) result ≡ text.now }
{
    match text {
        Some(text) => Some(text.text().as_bytes()),
        None => None,
    }
}

/// The field that is at fault, or no bytes for the whole.
fn field_of(alloc: Global, field: &Option<Utf8>) -> Result<Text, NoMemory>
    ensures { IfOk result (λ text. text ≡ unwrap_or field.now []) }
{
    match field {
        Some(field) => Text::new(alloc, field.text().as_bytes()),
        None => Ok(Text::empty(alloc)),
    }
}

/// What is answered to a text that is no request.
pub(crate) fn bad_text(alloc: Global, text: &BadText) -> Result<Body, NoMemory>
    ensures { IfOk result (λ body. body ≡ text_refusal text.now.code text.now.field) }
{
    match text.code {
        1 => Ok(Body::TooLong),
        2 => Ok(Body::NotJson),
        3 => {
            let field = field_of(alloc, &text.field)?;
            Ok(Body::BadShape { field })
        }
        _ => Ok(Body::UnknownCmd),
    }
}
