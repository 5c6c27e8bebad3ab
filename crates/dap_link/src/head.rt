//! What stands in front of the bytes of an input: a head, and how long the body behind it is.
//!
//! Decides: that a head is refused as soon as nothing can make one of it. The reader of header fields tells that of most texts; a seventeenth
//! field it tells only once that is whole, so the first byte of one is looked for here.

ghost use Rattle.std.specs.Prelude.{◌≡◌, ◌≤◌, ℕ, List, length, All, map, None, option_map};
ghost use Rattle.httparse.specs.Grammar.{HasNoSection, MayBecomeSection};
ghost use Rattle.httparse.specs.Spans.{IsHeaderWithin, header_bytes};
ghost use Rattle.dap_link.specs.Heads.{IsSeen, IsFront, begins_beyond, is_length, told_once, length_told};
ghost use Rattle.std.specs.List.{list_all};
ghost use Rattle.text_core.specs.Digits.{is_digit};
ghost use Rattle.dap_link.specs.Frames.{are_digits};

use httparse::Status;
use httparse::spans::{EMPTY_HEADER_SPAN, HeaderSpan, parse_headers};
use text_core::{is_digit, number_of};

/// The most bytes of a head.
const MOST_HEAD: usize = 4_096;
/// The most fields of a head.
const MOST_FIELDS: usize = 16;
/// The most bytes of a body.
const MOST_BODY: u128 = 1_048_576;

/// What stands in front of a text.
#[derive(Clone, Copy)]
pub(crate) enum Front {
    /// A part of a head, which more bytes can make whole.
    Unfinished,
    /// A fault of its head, by its number.
    Fault(u8),
    /// A head; the body begins at `at` and has `len` bytes.
    Body { at: usize, len: usize },
}

/// Whether a byte that ends no line stands behind so many lines of a text.
fn begins_beyond(lines: usize, text: &[u8]) -> bool
    ensures { result ≡ begins_beyond lines text.now }
{
    let mut left = lines;
    for byte in text {
        if left == 0 {
            return *byte != b'\r';
        }
        if *byte == b'\n' {
            left -= 1;
        }
    }
    false
}

/// Whether each of these bytes is a decimal digit.
fn all_digits(value: &[u8]) -> bool
    ensures { result ≡ list_all is_digit value.now }
{
    value.iter().all(|byte| is_digit(*byte))
}

/// Whether these are decimal digits.
#[tactic(auto, using(crate::proofs::Steps::some_digits))]
fn are_digits(value: &[u8]) -> bool
    ensures { result ≡ are_digits value.now }
{
    !value.is_empty() && all_digits(value)
}

/// Whether a field of this name and value tells a length.
fn is_length(name: &[u8], value: &[u8]) -> bool
    ensures { result ≡ is_length (name.now, value.now) }
{
    name.eq_ignore_ascii_case(b"Content-Length") && are_digits(value)
}

/// The digits of the one length that these fields tell, where they tell one.
fn one_length<'t>(text: &'t [u8], fields: &[HeaderSpan]) -> Option<&'t [u8]>
    requires { All (IsHeaderWithin (length text.now)) fields.now }
    ensures { option_map (λ digits. digits.now) result ≡ told_once None (map (header_bytes text.now) fields.now) }
{
    let mut told = None;
    for field in fields {
        let (name, value) = (field.name.of(text), field.value.of(text));
        if is_length(name, value) {
            if told.is_some() {
                return None;
            }
            told = Some(value);
        }
    }
    told
}

/// What stands in front of a text.
pub(crate) fn front_of(text: &[u8]) -> Front
    ensures { IsFront text.now result }
{
    front_seen(&text[..text.len().min(MOST_HEAD)])
}

/// What stands in front of a text of which these are the first 4,096 bytes, or all.
fn front_seen(seen: &[u8]) -> Front
    requires { length seen.now ≤ 4096 }
    ensures { (text : List ℕ) → IsSeen seen.now text → IsFront text result }
{
    let mut fields = [EMPTY_HEADER_SPAN; MOST_FIELDS];
    match parse_headers(seen, &mut fields) {
        Ok(Status::Complete((at, count))) => body_of(seen, at, &fields[..count]),
        Ok(Status::Partial) => part_of(seen),
        Err(_) => Front::Fault(1),
    }
}

/// What stands in front of a text that begins with no head, and with what can become a block of fields.
fn part_of(seen: &[u8]) -> Front
    requires none { HasNoSection seen.now }
    requires more { MayBecomeSection seen.now }
    ensures { (text : List ℕ) → IsSeen seen.now text → IsFront text result }
{
    if seen.len() == MOST_HEAD {
        return Front::Fault(1);
    }
    if begins_beyond(MOST_FIELDS, seen) {
        return Front::Fault(1);
    }
    Front::Unfinished
}

/// The body behind a head that ends at `at` and has these fields.
fn body_of(seen: &[u8], at: usize, fields: &[HeaderSpan]) -> Front
    requires { All (IsHeaderWithin (length seen.now)) fields.now }
    ensures { result ≡ length_told at (told_once None (map (header_bytes seen.now) fields.now)) }
{
    match one_length(seen, fields) {
        None => Front::Fault(2),
        Some(digits) => match number_of(10, digits, MOST_BODY) {
            None => Front::Fault(3),
            Some(len) => Front::Body {
                at,
                len: len as usize,
            },
        },
    }
}
