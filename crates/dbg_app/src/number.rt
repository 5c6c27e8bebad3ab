//! Small numbers among the words.

ghost use Rattle.std.specs.Prelude.{◌≡◌, ◌≤◌, IfSome};
ghost use Rattle.dbg_app.specs.Number.{number_to as the_number_to};

use text_core::{digits_len, number_of};

/// The number from 1 to this most that decimal digits say, if they do. Leading zeros may stand in it.
pub(crate) fn number_to(most: u16, digits: &[u8]) -> Option<u16>
    ensures number { result ≡ the_number_to most digits.now }
    ensures within { IfSome result (λ number. number ≤ most) }
{
    if digits.is_empty() || digits_len(10, digits) < digits.len() {
        return None;
    }
    let number = number_of(10, digits, u128::from(most))?;
    if number == 0 {
        None
    } else {
        Some(number as u16)
    }
}
