//! The processes of a design: each block once for each instance of its variant.

ghost use Rattle.std.specs.Prelude.{◌≡◌, ◌++◌, Some, map, IfOk, OnOk};
ghost use Rattle.design_core.specs.DesignView.{design_of};
ghost use Rattle.design_exec.specs.Processes.{processes_at, processes_of};
ghost use Rattle.ssa_core.specs.Processes.{process_at};

use design_core::{Design, Instance, blocks_of, in_32_bits};
use std::alloc::Global;
use text_core::NoMemory;

/// A process: a block of an instance, by the numbers of the instance, of its variant, and of the block in the variant.
#[derive(Clone, Copy)]
pub struct ProcessKey {
    pub instance: u32,
    pub variant: u32,
    pub block: u32,
}

/// Puts the processes of an instance last.
fn push_blocks(
    keys: &mut Vec<ProcessKey>,
    design: &Design,
    number: u32,
    instance: &Instance,
) -> Result<(), NoMemory>
    ensures { OnOk result (map (process_at (design_of design.now)) keys.new.items
        ≡ map (process_at (design_of design.now)) keys.old.items ++ map (λ b. Some b) (processes_at (design_of design.now) (number, instance.now))) }
{
    let blocks = blocks_of(&design.variants, instance.variant);
    for block in 0..blocks.len() {
        keys.push(ProcessKey {
            instance: number,
            variant: instance.variant,
            block: in_32_bits(block)?,
        })?;
    }
    Ok(())
}

/// The processes of a design, instance by instance.
pub fn process_keys(alloc: Global, design: &Design) -> Result<Vec<ProcessKey>, NoMemory>
    ensures { IfOk result (λ keys. map (process_at (design_of design.now)) keys.items ≡ map (λ b. Some b) (processes_of (design_of design.now)).processes) }
{
    let mut keys = Vec::new(alloc);
    for (number, instance) in design.instances.items().iter().enumerate() {
        push_blocks(&mut keys, design, in_32_bits(number)?, instance)?;
    }
    Ok(keys)
}
