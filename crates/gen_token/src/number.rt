//! Numbers and literals. A digit run directly before a letter or `_` is no number: `8x` is a bad token and not two tokens.

ghost use Rattle.std.specs.Prelude.{◌≡◌, ◌≤◌, ◌<◌, ◌^◌, Some, None, IfSome, length};
ghost use Rattle.std.specs.Option.{option_map};
ghost use Rattle.gen_token.specs.Tokens.{digits_at, apart, value_at, after_digits, number_at};
ghost use Rattle.gen_token.specs.Bytes.{base_of};
ghost use Rattle.gen_token.specs.Words.{word_of, found_as};

use crate::Token;
use crate::bytes::begins_word;
use text_core::{digits_len, number_of};

/// The largest number, and the largest width of a literal.
const NUMBER_MAX: u128 = 1 << 62;

/// A number or a literal in front of a text, and what follows it.
#[tactic(auto, unfolding(crate::specs::Tokens::number_at))]
pub(crate) fn number_at(text: &[u8]) -> Option<(Token<'_>, &[u8])>
    ensures token { found_as result ≡ number_at text.now }
    ensures shorter { IfSome result (λ found. length found.1.now < length text.now) }
{
    let (number, rest) = digits_at(10, NUMBER_MAX, text)?;
    after_digits(number as u64, rest)
}

/// A literal of this width, if a quote stands in front; else this number.
#[tactic(auto, unfolding(crate::specs::Tokens::after_digits))]
fn after_digits(number: u64, text: &[u8]) -> Option<(Token<'_>, &[u8])>
    ensures token { found_as result ≡ after_digits number text.now }
    ensures no_longer { IfSome result (λ found. length found.1.now ≤ length text.now) }
{
    match text {
        [b'\'', literal @ ..] => value_at(number, literal),
        _ => apart(Token::Number(number), text),
    }
}

/// A literal of this width, from the letter after its quote on, and what follows it.
#[tactic(auto, unfolding(crate::specs::Tokens::value_at))]
fn value_at(width: u64, text: &[u8]) -> Option<(Token<'_>, &[u8])>
    ensures token { found_as result ≡ value_at width text.now }
    ensures shorter { IfSome result (λ found. length found.1.now < length text.now) }
{
    let [letter, digits @ ..] = text else {
        return None;
    };
    let base = base_of(*letter)?;
    let (value, rest) = digits_at(base, u128::MAX, digits)?;
    apart(Token::Literal { width, value }, rest)
}

/// The base that a literal's letter says.
fn base_of(letter: u8) -> Option<u8>
    ensures base { result ≡ base_of letter }
    ensures some { IfSome result (λ base. 1 ≤ base) }
    ensures most { IfSome result (λ base. base ≤ 16) }
{
    match letter {
        b'h' => Some(16),
        b'd' => Some(10),
        _ => None,
    }
}

/// A token with what follows it, unless that begins with a letter or `_`.
fn apart<'a>(token: Token<'a>, rest: &'a [u8]) -> Option<(Token<'a>, &'a [u8])>
    ensures token { found_as result ≡ apart (word_of token.entry) rest.now }
    ensures rest { IfSome result (λ found. found.1.now ≡ rest.now) }
{
    if begins_word(rest) {
        return None;
    }
    Some((token, rest))
}

/// The number that the digits in front stand for, if it is no more than most, and what follows them.
#[tactic(auto, unfolding(crate::specs::Tokens::digits_at))]
fn digits_at(base: u8, most: u128, text: &[u8]) -> Option<(u128, &[u8])>
    requires some { 1 ≤ base }
    requires most { base ≤ 16 }
    ensures number { option_map (λ found. (found.0, found.1.now)) result ≡ digits_at base most text.now }
    ensures bound { IfSome result (λ found. found.0 ≤ most) }
    ensures shorter { IfSome result (λ found. length found.1.now < length text.now) }
{
    let (digits, rest) = text.split_at(digits_len(base, text));
    if digits.is_empty() {
        return None;
    }
    let number = number_of(base, digits, most)?;
    Some((number, rest))
}
