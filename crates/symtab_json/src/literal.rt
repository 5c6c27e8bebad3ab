//! Literals. One is read by what it would be printed as, so the form that is read is the form that is printed.

ghost use Rattle.std.specs.Prelude.{◌≡◌, IfOk};
ghost use Rattle.symtab_json.specs.Literals.{told_literal, literal_in, literal_of_width};

use bv_core::{Bv, text_of};
use std::alloc::Global;
use text_core::{NoMemory, digits_len, number_of};

/// The value of this width that digits to base 16 stand for; None where they stand for none.
#[tactic(auto, using(crate::proofs::Literals::too_large))]
fn literal_of_width(width: u8, digits: &[u8]) -> Option<Bv>
    ensures { result ≡ literal_of_width width digits.now }
{
    let value = number_of(16, digits, u128::MAX)?;
    Bv::make(width, value)
}

/// The value of the two numbers of a text: that of the digits that it begins with, its width, and, behind `'h`, that of
/// the rest to base 16. None where there is no `'h`, or they are no value.
#[tactic(auto, using(crate::proofs::Literals::too_wide))]
fn literal_in(text: &[u8]) -> Option<Bv>
    ensures { result ≡ literal_in text.now }
{
    let (digits, tail) = text.split_at(digits_len(10, text));
    if !tail.starts_with(b"'h") {
        return None;
    }
    let width = number_of(10, digits, 128)?;
    literal_of_width(width as u8, &tail[2..])
}

/// The value that is printed as this text; None where none is.
pub(crate) fn literal(alloc: Global, text: &[u8]) -> Result<Option<Bv>, NoMemory>
    ensures { IfOk result (λ value. value ≡ told_literal text.now) }
{
    let Some(value) = literal_in(text) else {
        return Ok(None);
    };
    if text_of(alloc, value)?.as_bytes() == text {
        Ok(Some(value))
    } else {
        Ok(None)
    }
}
