//! The shape of a design's symbol table: all of it but nodes and rows, which only a net can tell.

ghost use Rattle.std.specs.Prelude.{◌≡◌, IfOk, map};
ghost use Rattle.design_core.specs.DesignView.{design_of};
ghost use Rattle.lower_core.specs.Shape.{shape_of as the_shape, slot_part};
ghost use Rattle.world_core.specs.Sites.{sites_in_order};

use crate::ordered::by_number;
use crate::parts::{instances_of, variants_of};
use crate::sites::numbered_slots;
use design_core::Design;
use std::alloc::Global;
use symtab::{Slot, TableParts};
use text_core::{Listed, NoMemory, Text};

/// The statements of a design in the order of their slots, without rows.
fn slots_of(alloc: Global, design: &Design) -> Result<Vec<Slot>, NoMemory>
    ensures { IfOk result (λ slots. slots.items ≡ map slot_part (sites_in_order (design_of design.now))) }
{
    let numbered = numbered_slots(alloc, &design.variants)?;
    let slots = by_number(alloc, numbered)?;
    Ok(slots)
}

/// The parts of a design's symbol table that do not depend on its nodes: the top, the variants with their parameters, the
/// instances, and the statements in the order of their slots, without rows. Fails only where memory runs out.
pub fn shape_of(alloc: Global, design: &Design) -> Result<TableParts, NoMemory>
    ensures { IfOk result (λ shape. shape ≡ the_shape (design_of design.now)) }
{
    let top = Text::new(alloc, design.top.bytes())?;
    let variants = variants_of(alloc, &design.variants)?;
    let instances = instances_of(alloc, design.instances.items())?;
    let slots = slots_of(alloc, design)?;
    Ok(TableParts {
        top,
        nodes: Listed::new(Vec::new(alloc)),
        variants,
        instances,
        slots: Listed::new(slots),
    })
}
