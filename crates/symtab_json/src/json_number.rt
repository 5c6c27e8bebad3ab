//! The numbers of JSON: whole ones of 64 bits, and floats. A number that is too large for a float is none.

ghost use Rattle.std.specs.Prelude.{◌≡◌, ◌==◌, ◌<◌, option_map, slice_index, length, IsTrue, true, false};
ghost use Rattle.serde_json.specs.Find.{as_i64, as_u64};
ghost use Rattle.serde_json.specs.Read.{float_of, number_from, number_of};
ghost use Rattle.symtab_json.specs.Numerals.{num_of};

use fast_float::Numeral;

/// A number.
#[derive(Clone, Copy)]
pub(crate) enum Number {
    Unsigned(u64),
    Negative(i64),
    Float(f64),
}

impl Number {
    /// The whole number from 0 to 2^64-1 that it is.
    pub(crate) fn as_u64(self) -> Option<u64>
        ensures { result ≡ as_u64 (num_of self) }
    {
        match self {
            Number::Unsigned(n) => Some(n),
            Number::Negative(_) | Number::Float(_) => None,
        }
    }

    /// The whole number from -2^63 to 2^63-1 that it is.
    pub(crate) fn as_i64(self) -> Option<i64>
        ensures { result ≡ as_i64 (num_of self) }
    {
        match self {
            Number::Unsigned(n) => if n <= i64::MAX as u64 {
                Some(n as i64)
            } else {
                None
            },
            Number::Negative(n) => Some(n),
            Number::Float(_) => None,
        }
    }
}

/// The nearest float, unless the number is too large.
fn nearest(negative: bool, numeral: &Numeral<'_>) -> Option<Number>
    ensures { option_map num_of result ≡ float_of negative numeral.now }
{
    let x: f64 = numeral.to_float(negative);
    if x.is_finite() {
        Some(Number::Float(x))
    } else {
        None
    }
}

/// A number without a sign.
fn unsigned(numeral: &Numeral<'_>) -> Option<Number>
    ensures { option_map num_of result ≡ number_from false numeral.now }
{
    match numeral.to_u64() {
        Some(n) => Some(Number::Unsigned(n)),
        None => nearest(false, numeral),
    }
}

/// A number behind a minus sign.
fn negative(numeral: &Numeral<'_>) -> Option<Number>
    ensures { option_map num_of result ≡ number_from true numeral.now }
{
    match numeral.to_i64(true) {
        Some(n) if n < 0 => Some(Number::Negative(n)),
        _ => nearest(true, numeral),
    }
}

/// Whether a text begins with a minus sign.
fn has_minus(text: &[u8]) -> bool
    ensures value { result ≡ (slice_index text.now 0 == 45) }
    ensures some { IsTrue result → 0 < length text.now }
{
    !text.is_empty() && text[0] == b'-'
}

/// The number that a token's text writes.
pub(crate) fn number_of(text: &str) -> Option<Number>
    ensures { option_map num_of result ≡ number_of text.now }
{
    let text = text.as_bytes();
    if has_minus(text) {
        negative(&Numeral::scan(&text[1..]))
    } else {
        unsigned(&Numeral::scan(text))
    }
}
