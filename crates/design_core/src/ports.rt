//! The top of a design as its surroundings see it: what a stimulus and a dump file are judged by.

ghost use Rattle.std.specs.Prelude.{◌≡◌, IsTrue, IfOk, ◌&&◌};
ghost use Rattle.std.specs.List.{list_all};
ghost use Rattle.design_core.specs.Ports.{has_width, have_names};

use std::alloc::Global;
use text_core::{Listed, NoMemory, Text};

/// The top of a design as its surroundings see it: the name of its module, its inputs and outputs in the order of
/// their declaration, each with its width in bits from 1 to 128, and how many registers all of its instances have. Each of
/// these names is a name of the language.
#[derive(Drop)]
pub struct Ports {
    pub module: Text,
    pub inputs: Listed<(Text, u8)>,
    pub outputs: Listed<(Text, u8)>,
    pub registers: u32,
    pub ghost widths: { IsTrue (list_all has_width inputs && list_all has_width outputs) },
    pub ghost names: { IsTrue (have_names «module» inputs outputs) },
}

impl Ports {
    /// A copy. Fails only where memory runs out.
    pub fn copy(&self, alloc: Global) -> Result<Ports, NoMemory>
        ensures { IfOk result (λ ports. ports ≡ self.now) }
    {
        Ok(Ports {
            module: Text::new(alloc, self.module.bytes())?,
            inputs: copied(alloc, self.inputs.items())?,
            outputs: copied(alloc, self.outputs.items())?,
            registers: self.registers,
        })
    }
}

/// A copy of a list of names with widths.
fn copied(alloc: Global, ports: &[(Text, u8)]) -> Result<Listed<(Text, u8)>, NoMemory>
    ensures { IfOk result (λ found. found ≡ ports.now) }
{
    let mut found = Vec::new(alloc);
    for (name, width) in ports {
        found.push((Text::new(alloc, name.bytes())?, *width))?;
    }
    Ok(Listed::new(found))
}
