//! The numbers of a dump file: sizes and times, in decimal digits with a bound.

ghost use Rattle.std.specs.Prelude.{◌≡◌, Some, None, if◌then◌else◌};
ghost use Rattle.std.specs.List.{list_all};
ghost use Rattle.text_core.specs.Digits.{is_digit_of, number_of};
ghost use Rattle.vcd_read.specs.Head.{is_size};
ghost use Rattle.vcd_read.specs.Changes.{is_time};

use text_core::{digit_of, number_of};

/// Whether bytes are decimal digits alone.
fn are_digits(bytes: &[u8]) -> bool
    ensures { result ≡ list_all (is_digit_of 10) bytes.now }
{
    bytes.iter().all(|byte| digit_of(*byte) < 10)
}

/// The size of a variable in bits, from 1 to 2^32 - 1, which decimal digits say; leading zeros may stand in them.
pub(crate) fn size_of(bytes: &[u8]) -> Option<u32>
    ensures { result ≡ (if is_size bytes.now then Some (number_of 10 bytes.now) else None) }
{
    if !are_digits(bytes) {
        return None;
    }
    let number = number_of(10, bytes, u128::from(u32::MAX))?;
    if number == 0 {
        return None;
    }
    Some(number as u32)
}

/// The time, below 2^64, which decimal digits say; leading zeros may stand in them.
pub(crate) fn time_of(digits: &[u8]) -> Option<u64>
    ensures { result ≡ (if is_time digits.now then Some (number_of 10 digits.now) else None) }
{
    if digits.is_empty() || !are_digits(digits) {
        return None;
    }
    let number = number_of(10, digits, u128::from(u64::MAX))?;
    Some(number as u64)
}
