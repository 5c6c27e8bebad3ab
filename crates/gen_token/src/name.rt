//! Which bytes are a name. Words on a command line are judged by the same rule as names in a source.

ghost use Rattle.std.specs.Prelude.{◌≡◌, ◌↔◌, IsTrue};
ghost use Rattle.std.specs.List.{list_all};
ghost use Rattle.gen_token.specs.Bytes.{is_name_byte};
ghost use Rattle.gen_token.specs.Spelling.{is_name_text, is_name, IsName};

use crate::bytes::{is_letter, is_name_byte};
use crate::keyword::keyword_of;

/// Whether these bytes are a name: a letter, then letters, digits and `_`, and no keyword. Takes no memory.
pub fn is_name(bytes: &[u8]) -> bool
    ensures value { result ≡ is_name bytes.now }
    ensures name { IsTrue result ↔ IsName bytes.now }
{
    is_free(bytes)
}

/// Whether these bytes are a name's text and no keyword's.
#[tactic(auto, unfolding(crate::specs::Spelling::is_name))]
fn is_free(bytes: &[u8]) -> bool
    ensures { result ≡ is_name bytes.now }
{
    is_name_text(bytes) && keyword_of(bytes).is_none()
}

/// Whether these bytes are a letter, and then letters, digits and `_`.
fn is_name_text(bytes: &[u8]) -> bool
    ensures { result ≡ is_name_text bytes.now }
{
    match bytes {
        [first, others @ ..] => is_letter(*first) && are_name_bytes(others),
        [] => false,
    }
}

fn are_name_bytes(bytes: &[u8]) -> bool
    ensures { result ≡ list_all is_name_byte bytes.now }
{
    bytes.iter().all(|byte| is_name_byte(*byte))
}
