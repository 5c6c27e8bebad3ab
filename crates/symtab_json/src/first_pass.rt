//! The first pass over a file: whether it is JSON at all. It goes over the tokens and keeps nothing of them, so a file that is refused has taken no
//! room. Each number is looked at, since one that is too large for a float makes a text no JSON.

ghost use Rattle.std.specs.Prelude.{◌≡◌, ◌<◌, length, IfOk, MatchOption, MatchResult, None, OnOk, Some};
ghost use Rattle.std.specs.Bool.{MatchBool};
ghost use Rattle.serde_json.specs.Read.{read};
ghost use Rattle.symtab_json.specs.JsonText.{IsJson, IsWhole};
ghost use Rattle.symtab_json.specs.Told.{json_of};
ghost use Rattle.symtab_json.specs.Standing.{passed_items, passed_members, passed_value};

use crate::json_number::number_of;
use crate::tokens::MOST_DEEP;
use json::{Invalid, Reader, Scratch, Token};
use std::alloc::AllocError;

/// Passes over a value whose lists and objects nest at most so deep.
#[cycle(check)]
#[tactic(auto, using(crate::proofs::Passes::nothing_passed, crate::proofs::Passes::string_passed, crate::proofs::Passes::boolean_passed, crate::proofs::Passes::null_passed, crate::proofs::Passes::number_passed, crate::proofs::Passes::array_passed, crate::proofs::Passes::object_passed, crate::proofs::Passes::array_too_deep, crate::proofs::Passes::object_too_deep, crate::proofs::Passes::end_passed))]
fn check_value(reader: &mut Reader<'_>, depth: usize) -> Result<(), Invalid>
    ensures value { MatchResult result (λ _. passed_value depth reader.old ≡ Some reader.new) (λ _. passed_value depth reader.old ≡ None) }
    ensures shorter { OnOk result (length reader.new < length reader.old) }
{
    let token = reader.next().ok_or(Invalid)?;
    match token {
        Token::String(_) | Token::Bool(_) | Token::Null => Ok(()),
        Token::Number(text) => match number_of(text) {
            Some(_) => Ok(()),
            None => Err(Invalid),
        },
        Token::BeginArray => if depth == 0 {
            Err(Invalid)
        } else {
            check_items(reader, depth - 1)
        },
        Token::BeginObject => if depth == 0 {
            Err(Invalid)
        } else {
            check_members(reader, depth - 1)
        },
        Token::EndObject | Token::EndArray | Token::Key(_) | Token::Bad => Err(Invalid),
    }
}

/// Passes over the entries of a list that are left, and its end.
#[cycle(check)]
#[tactic(auto, using(crate::proofs::Passes::item_passed, crate::proofs::Passes::item_failed, crate::proofs::Passes::items_ended))]
fn check_items(reader: &mut Reader<'_>, depth: usize) -> Result<(), Invalid>
    ensures value { MatchResult result (λ _. passed_items depth reader.old ≡ Some reader.new) (λ _. passed_items depth reader.old ≡ None) }
    ensures shorter { OnOk result (length reader.new < length reader.old) }
{
    'items: while !reader.take_end_array() {
        check_value(reader, depth)?;
    }
    Ok(())
}

/// Passes over the members of an object that are left, and its end.
#[cycle(check)]
#[tactic(auto, using(crate::proofs::Passes::member_passed, crate::proofs::Passes::member_failed, crate::proofs::Passes::members_ended, crate::proofs::Passes::key_failed))]
fn check_members(reader: &mut Reader<'_>, depth: usize) -> Result<(), Invalid>
    ensures value { MatchResult result (λ _. passed_members depth reader.old ≡ Some reader.new) (λ _. passed_members depth reader.old ≡ None) }
    ensures shorter { OnOk result (length reader.new < length reader.old) }
{
    'members: while let Some(_) = reader.next_key()? {
        check_value(reader, depth)?;
    }
    Ok(())
}

/// Whether a text is a value.
#[tactic(auto, using(crate::proofs::Passes::text_whole, crate::proofs::Passes::text_and_more, crate::proofs::Passes::text_failed))]
fn is_whole(scratch: &mut Scratch, text: &str) -> Result<bool, AllocError>
    ensures { IfOk result (λ whole. MatchBool whole (IsWhole text.now) (read text.now ≡ None)) }
{
    let mut reader = Reader::new(text, scratch)?;
    if check_value(&mut reader, MOST_DEEP).is_err() {
        return Ok(false);
    }
    Ok(reader.next().is_none())
}

/// The text that bytes are, if they are UTF-8 and a value.
#[tactic(auto, using(crate::proofs::Passes::whole_json, crate::proofs::Passes::no_json))]
pub(crate) fn json_text<'a>(
    scratch: &mut Scratch,
    bytes: &'a [u8],
) -> Result<Option<&'a str>, AllocError>
    ensures { IfOk result (λ found. MatchOption found (json_of bytes.now ≡ None) (λ text. (text.now ≡ bytes.now) × IsJson text.now)) }
{
    let Ok(text) = simdutf8::basic::from_utf8(bytes) else {
        return Ok(None);
    };
    if is_whole(scratch, text)? {
        Ok(Some(text))
    } else {
        Ok(None)
    }
}
