//! Reading a dump file: one pass with room for all that the text can tell, so that the pass itself takes no memory.

ghost use Rattle.std.specs.Prelude.{◌≡◌, IfOk};
ghost use Rattle.vcd_read.specs.Kept.{IsVcd};
ghost use Rattle.vcd_read.specs.Meaning.{meaning};
ghost use Rattle.vcd_read.specs.Results.{Gives};

use crate::body::read_changes;
use crate::head::read_head;
use crate::words::Words;
use crate::{Vcd, VcdFault};
use std::alloc::Global;

const MOST_BYTES: usize = 64 * 1024 * 1024;

/// Reads a value change dump file of at most 64 MiB, as IEEE Std 1364-2005, section 18.2, defines it for four states.
///
/// # Errors
///
/// `TooLong`; otherwise the first fault in the text, from left to right, with its offset and numbers. `NoMemory` is the
/// one answer that no clause ties to a cause.
///
/// Goes over the text once, and finds codes by hash. A change takes 12 bytes and its digits, each different time 8, a
/// variable 20 bytes and its name, a scope 12 bytes, its name and 4 bytes more while it is open, and a code 12 bytes and
/// its bytes until the text is read: at most about four times the text in all. Room is reserved once, about 11 bytes for
/// each byte of the text, and what is not used is not touched.
pub fn read_vcd(alloc: Global, text: &[u8]) -> Result<Vcd, VcdFault>
    ensures meaning { Gives (λ vcd. vcd) result (meaning text.now) }
    ensures kept { IfOk result IsVcd }
{
    if text.len() > MOST_BYTES {
        return Err(VcdFault::TooLong);
    }
    let mut words = Words::of(text);
    let head = read_head(alloc, &mut words, text.len())?;
    let changes = read_changes(alloc, &head, &mut words, text.len())?;
    Ok(Vcd::new(head.scopes, head.vars, changes))
}
