//! Numbers of parts of a design. They have 32 bits, as no design has more parts.

ghost use Rattle.std.specs.Prelude.{◌≡◌, IfOk};

use text_core::NoMemory;

/// A number of 32 bits; at 2^32 it answers that memory ran out.
pub fn in_32_bits(number: usize) -> Result<u32, NoMemory>
    ensures { IfOk result (λ found. found ≡ number) }
{
    u32::try_from(number).map_err(|_| NoMemory)
}
