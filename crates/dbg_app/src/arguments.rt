//! Arguments of the top module among the words: a name, an equals sign and a number.

ghost use Rattle.std.specs.Prelude.{◌≡◌, ◌≤◌, int_le, true, pos, length, IfOk, IfSome, OnOk, Some, None};
ghost use Rattle.std.specs.Option.{option_map};
ghost use Rattle.std.specs.List.{filter_map};
ghost use Rattle.design_core.specs.Design.{IsInRange};
ghost use Rattle.dbg_app.specs.Command.{argument_of as the_argument_of, has_minus as the_has_minus, name_len as the_name_len, natural_of as the_natural_of, whole_of as the_whole_of};
ghost use Rattle.dbg_app.specs.Asked.{given_in as the_given_in};

use gen_elab::Given;
use gen_token::is_name;
use io_edge::Words;
use std::alloc::Global;
use text_core::{NoMemory, digits_len, number_of};

/// The largest number, 2^62.
const MOST: u128 = 4_611_686_018_427_387_904;

/// The number that decimal digits stand for, if there is one, up to 2^62.
fn natural_of(digits: &[u8]) -> Option<i64>
    ensures number { result ≡ option_map pos (the_natural_of digits.now) }
    ensures range { IfSome result (λ number. (int_le (pos 0) number ≡ true) × (int_le number (pos 4611686018427387904) ≡ true)) }
{
    if digits.is_empty() || digits_len(10, digits) < digits.len() {
        return None;
    }
    let number = number_of(10, digits, MOST)?;
    Some(number as i64)
}

/// Whether a minus stands in front.
fn has_minus(digits: &[u8]) -> bool
    ensures { result ≡ the_has_minus digits.now }
{
    match digits.first() {
        Some(first) => *first == b'-',
        None => false,
    }
}

/// The number that decimal digits, with a minus or without, stand for.
fn whole_of(digits: &[u8]) -> Option<i64>
    ensures number { result ≡ the_whole_of digits.now }
    ensures range { IfSome result IsInRange }
{
    if has_minus(digits) {
        let number = natural_of(&digits[1..])?;
        return Some(0 - number);
    }
    natural_of(digits)
}

/// How many bytes stand before the first equals sign.
fn name_len(word: &[u8]) -> usize
    ensures len { result ≡ the_name_len word.now }
    ensures within { result ≤ length word.now }
{
    word.iter().take_while(|byte| **byte != b'=').count()
}

/// The name and the number of an argument, if the word is one.
pub(crate) fn argument_of<'a>(word: &'a str) -> Option<(&'a [u8], i64)>
    ensures argument { option_map (λ argument. (argument.0.now, argument.1)) result ≡ the_argument_of word.now }
    ensures range { IfSome result (λ argument. IsInRange argument.1) }
{
    let bytes = word.as_bytes();
    let end = name_len(bytes);
    let name = &bytes[..end];
    if end == bytes.len() || !is_name(name) {
        return None;
    }
    let number = whole_of(&bytes[end + 1..])?;
    Some((name, number))
}

/// What the words from this place on give the top.
pub(crate) fn given_in(alloc: Global, words: &Words, first: usize) -> Result<Given, NoMemory>
    ensures { IfOk result (λ given. given ≡ the_given_in first words.now) }
{
    let mut given = Given::new(alloc);
    for i in first..words.count() {
        if let Some((name, number)) = argument_of(words.word(i)) {
            given.add(name, number)?;
        }
    }
    Ok(given)
}
