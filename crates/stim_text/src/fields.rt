//! The fields of a line of a stimulus, and what number each is.

ghost use Rattle.std.specs.Prelude.{◌≡◌, ◌≤◌, ◌<◌, ◌^◌, ◌∷◌, [], length, MatchOption, Some, None, if◌then◌else◌, nat_lt};
ghost use Rattle.std.specs.List.{position_or_len, prefix_len, list_all};
ghost use Rattle.text_core.specs.Digits.{is_digit_of};
ghost use Rattle.stim_text.specs.Fields.{is_gap, fields, numeral, is_number, number_in};

use bv_core::Bv;
use text_core::{digit_of, number_of};

/// Whether a byte is a blank or a tab.
fn is_gap(byte: u8) -> bool
    ensures { result ≡ is_gap byte }
{
    byte == b' ' || byte == b'\t'
}

/// How many blanks and tabs a line begins with.
fn gap_len(line: &[u8]) -> usize
    ensures len { result ≡ prefix_len is_gap line.now }
    ensures within { result ≤ length line.now }
{
    line.iter().take_while(|byte| is_gap(**byte)).count()
}

/// How many other bytes a line begins with.
fn field_len(line: &[u8]) -> usize
    ensures len { result ≡ position_or_len is_gap line.now }
    ensures within { result ≤ length line.now }
{
    line.iter().take_while(|byte| !is_gap(**byte)).count()
}

/// The first field of a line, and what follows it. None where the line has no field.
#[tactic(auto, using(crate::proofs::FieldLemmas::first_field, crate::proofs::FieldLemmas::no_field))]
pub(crate) fn next_field(line: &[u8]) -> Option<(&[u8], &[u8])>
    ensures { MatchOption result (fields line.now ≡ []) (λ cut. fields line.now ≡ cut.0.now ∷ fields cut.1.now) }
{
    let (_, text) = line.split_at(gap_len(line));
    if text.is_empty() {
        return None;
    }
    Some(text.split_at(field_len(text)))
}

/// The base of a field's digits, which is 16 after `0x` and else 10, and the digits.
fn numeral(field: &[u8]) -> (u8, &[u8])
    ensures numeral { (result.0, result.1.now) ≡ numeral field.now }
    ensures some { 1 ≤ result.0 }
    ensures most { result.0 ≤ 16 }
{
    if field.starts_with(b"0x") {
        (16, &field[2..])
    } else {
        (10, field)
    }
}

/// Whether a field is digits to this base alone.
fn are_digits(base: u8, field: &[u8]) -> bool
    ensures { result ≡ list_all (is_digit_of base) field.now }
{
    field.iter().all(|byte| digit_of(*byte) < base)
}

/// Whether a field is a number: decimal digits, or `0x` and hexadecimal digits, at least one of them.
pub(crate) fn is_number(field: &[u8]) -> bool
    ensures { result ≡ is_number field.now }
{
    let (base, digits) = numeral(field);
    !digits.is_empty() && are_digits(base, digits)
}

/// The value of this width, from 1 to 128, that a field has the number of. None where the number is not below 2 to
/// the power of the width.
#[tactic(auto, using(crate::proofs::Widths::too_large))]
pub(crate) fn value_of(width: u8, field: &[u8]) -> Option<Bv>
    requires some { 1 ≤ width }
    requires most { width ≤ 128 }
    ensures { result ≡ (if nat_lt (number_in field.now) (2 ^ width) then Some (record { width = width; value = number_in field.now }) else None) }
{
    let (base, digits) = numeral(field);
    let number = number_of(base, digits, u128::MAX)?;
    Bv::make(width, number)
}
