//! Values, as a reader passes them token by token. The text was judged before, so a value stands wherever one is wanted.

ghost use Rattle.std.specs.Prelude.{◌≡◌, ◌∷◌, Some};
ghost use Rattle.std.specs.Bool.{MatchBool};
ghost use Rattle.std.specs.Option.{option_copied};
ghost use Rattle.json.specs.Json.{read_key};
ghost use Rattle.json.specs.Reads.{token_of};
ghost use Rattle.serde_json.specs.Data.{number, null, boolean, string};
ghost use Rattle.serde_json.specs.Find.{as_number, as_str};
ghost use Rattle.symtab_json.specs.Standing.{head_value, past_value, past_items, past_members, IsValue, AreItems, AreMembers};
ghost use Rattle.symtab_json.specs.Begun.{IsBegun, IsScalar, OpensList, OpensObject, PassesNoList, PassesNoObject};

use crate::json_number::{Number, number_of};
use json::{Reader, Token};

/// How deep lists and objects may nest.
pub(crate) const MOST_DEEP: usize = 127;

/// What a value is that is neither a list nor an object: a number, a text, or something else.
#[derive(Clone, Copy)]
pub(crate) struct Scalar<'a> {
    pub number: Option<Number>,
    pub text: Option<&'a str>,
}

/// What a value is found to be at its first token.
#[derive(Clone, Copy)]
enum Begun<'a> {
    List,
    Object,
    Scalar(Scalar<'a>),
}

/// The first token of a value.
#[tactic(auto, using(crate::proofs::Heads::some_token))]
fn first_token<'a>(reader: &mut Reader<'a>) -> Token<'a>
    requires { IsValue reader.old }
    ensures { reader.old ≡ token_of result ∷ reader.new }
{
    match reader.next() {
        Some(token) => token,
        None => unreachable!(),
    }
}

/// Passes over a value.
#[tactic(auto, using(crate::proofs::Heads::value_skipped))]
pub(crate) fn pass_value(reader: &mut Reader<'_>)
    requires { IsValue reader.old }
    ensures { reader.new ≡ past_value reader.old }
{
    match reader.skip_value(MOST_DEEP) {
        Ok(()) => {}
        Err(_) => unreachable!(),
    }
}

/// Passes over the entries of a list that are left, and its end.
#[tactic(auto, using(crate::proofs::Heads::item_value, crate::proofs::Heads::items_left, crate::proofs::Heads::items_past, crate::proofs::Heads::items_shorter, crate::proofs::Heads::items_end_past))]
pub(crate) fn pass_items(reader: &mut Reader<'_>)
    requires { AreItems reader.old }
    ensures { reader.new ≡ past_items reader.old }
{
    'items: while !reader.take_end_array() {
        pass_value(reader);
    }
}

/// The next key of an object. None behind its last member.
#[tactic(auto, using(crate::proofs::Heads::members_have_keys))]
pub(crate) fn next_key<'a>(reader: &mut Reader<'a>) -> Option<&'a str>
    requires { AreMembers reader.old }
    ensures { read_key reader.old ≡ Some (option_copied result, reader.new) }
{
    match reader.next_key() {
        Ok(key) => key,
        Err(_) => unreachable!(),
    }
}

/// Passes over the members of an object that are left, and its end.
#[tactic(auto, using(crate::proofs::Heads::member_value, crate::proofs::Heads::members_left, crate::proofs::Heads::members_past, crate::proofs::Heads::members_shorter, crate::proofs::Heads::members_end_past))]
fn pass_members(reader: &mut Reader<'_>)
    requires { AreMembers reader.old }
    ensures { reader.new ≡ past_members reader.old }
{
    'members: while next_key(reader).is_some() {
        pass_value(reader);
    }
}

/// Passes the first token of a list or an object, or another value as a whole.
fn open_value<'a>(reader: &mut Reader<'a>) -> Begun<'a>
    requires { IsValue reader.old }
    ensures { IsBegun result reader.old reader.new }
{
    match first_token(reader) {
        Token::BeginArray => Begun::List,
        Token::BeginObject => Begun::Object,
        Token::String(text) => Begun::Scalar(Scalar {
            number: None,
            text: Some(text),
        }),
        Token::Number(text) => Begun::Scalar(Scalar {
            number: number_of(text),
            text: None,
        }),
        Token::Bool(_) | Token::Null => Begun::Scalar(Scalar {
            number: None,
            text: None,
        }),
        Token::EndArray | Token::EndObject | Token::Key(_) | Token::Bad => unreachable!(),
    }
}

/// Passes over a value, and tells what it is.
pub(crate) fn read_scalar<'a>(reader: &mut Reader<'a>) -> Scalar<'a>
    requires { IsValue reader.old }
    ensures is { IsScalar result (head_value reader.old) }
    ensures past { reader.new ≡ past_value reader.old }
{
    let other = Scalar {
        number: None,
        text: None,
    };
    match open_value(reader) {
        Begun::List => {
            pass_items(reader);
            other
        }
        Begun::Object => {
            pass_members(reader);
            other
        }
        Begun::Scalar(found) => found,
    }
}

/// Passes the bracket that opens a list. A value that is no list is passed as a whole.
pub(crate) fn opens_list(reader: &mut Reader<'_>) -> bool
    requires { IsValue reader.old }
    ensures { MatchBool result (OpensList reader.old reader.new) (PassesNoList reader.old reader.new) }
{
    match open_value(reader) {
        Begun::List => true,
        Begun::Object => {
            pass_members(reader);
            false
        }
        Begun::Scalar(_) => false,
    }
}

/// Passes the brace that opens an object. A value that is no object is passed as a whole.
pub(crate) fn opens_object(reader: &mut Reader<'_>) -> bool
    requires { IsValue reader.old }
    ensures { MatchBool result (OpensObject reader.old reader.new) (PassesNoObject reader.old reader.new) }
{
    match open_value(reader) {
        Begun::List => {
            pass_items(reader);
            false
        }
        Begun::Object => true,
        Begun::Scalar(_) => false,
    }
}
