//! Where a refusal points: a line and a name of a module. Instances are put in where the verdict is told.

ghost use Rattle.std.specs.Prelude.{◌≡◌, IfOk};
ghost use Rattle.check_core.specs.Faults.{spot as the_spot};

use crate::Spot;
use std::alloc::Global;
use text_core::{NoMemory, Text};

/// A line and a name of a module, without an instance.
pub fn spot(alloc: Global, line: u32, name: &[u8]) -> Result<Spot, NoMemory>
    ensures { IfOk result (λ spot. spot ≡ the_spot line name.now) }
{
    Ok(Spot {
        line,
        name: Text::new(alloc, name)?,
        instance: Text::empty(alloc),
    })
}
