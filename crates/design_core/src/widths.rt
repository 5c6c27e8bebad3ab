//! The widths of a design as nodes have them, and its literals.

ghost use Rattle.std.specs.Prelude.{◌≡◌, ◌<◌};
ghost use Rattle.bv_core.specs.Value.{IsBits};
ghost use Rattle.design_core.specs.Widths.{bits};

use bv_core::Bv;

/// A number of bits, or a place among them; 0 for a negative one.
pub fn bits(number: i64) -> u8
    requires { bits number < 256 }
    ensures { result ≡ bits number }
{
    if number < 0 { 0 } else { number as u8 }
}

/// A constant of this width, which its value fits.
pub fn constant(width: i64, value: u128) -> Bv
    requires { IsBits (record { width = bits width; value = value }) }
    ensures { result ≡ record { width = bits width; value = value } }
{
    Bv::make(bits(width), value).unwrap()
}
