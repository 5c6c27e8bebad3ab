//! The name of a child's port in its parent.

ghost use Rattle.std.specs.Prelude.{◌≡◌, IfOk};
ghost use Rattle.design_core.specs.Dotted.{below as the_below};

use std::alloc::Global;
use text_core::{NoMemory, Text};

/// The name that a child's port has in its parent: the child's name, a dot and the port's.
pub fn below(alloc: Global, child: &[u8], port: &[u8]) -> Result<Text, NoMemory>
    ensures { IfOk result (λ name. name ≡ the_below child.now port.now) }
{
    let mut name = child.to_vec(alloc)?;
    name.push(b'.')?;
    name.extend_from_slice(port)?;
    Ok(Text::new(alloc, &name)?)
}
