//! The value that digits of a change stand for.

ghost use Rattle.std.specs.Prelude.{◌≡◌, ◌≤◌, length};
ghost use Rattle.std.specs.List.{list_all};
ghost use Rattle.vcd_samples.specs.Samples.{is_bit, value_of};

use bv_core::{Bv, Sample};
use text_core::number_of;

/// Whether a value character is a bit.
fn is_bit(digit: u8) -> bool
    ensures { result ≡ is_bit digit }
{
    digit == b'0' || digit == b'1'
}

/// Whether value characters are bits alone.
fn are_bits(digits: &[u8]) -> bool
    ensures { result ≡ list_all is_bit digits.now }
{
    digits.iter().all(|digit| is_bit(*digit))
}

/// The value of a variable of this size, by the digits of a change. Short digits are extended on the left with 0 where the first is
/// a bit, and otherwise with that x or z, so that the value is known exactly where all digits are bits.
#[tactic(auto, using(crate::proofs::Bits::unknown, crate::proofs::Bits::known, crate::proofs::Bits::below, crate::proofs::Bits::small))]
pub(crate) fn value_of(size: u8, digits: &[u8]) -> Sample
    requires some { 1 ≤ size }
    requires most { size ≤ 128 }
    requires fits { length digits.now ≤ size }
    ensures { result ≡ value_of size digits.now }
{
    if !are_bits(digits) {
        return Sample::Unknown;
    }
    let Some(number) = number_of(2, digits, u128::MAX) else {
        return Sample::Unknown;
    };
    match Bv::make(size, number) {
        Some(value) => Sample::Known(value),
        None => Sample::Unknown,
    }
}
