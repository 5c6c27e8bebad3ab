//! What lowering looks things up in, made once.

ghost use Rattle.std.specs.Prelude.{◌≡◌, None, IfOk};
ghost use Rattle.design_core.specs.DesignView.{design_of};
ghost use Rattle.check_core.specs.Verdict.{verdict};
ghost use Rattle.place_core.specs.Orders.{TellsOrder};
ghost use Rattle.ssa_nodes.specs.Parts.{HasParts, design_in};

use design_core::Design;
use names::NameMap;
use place_core::{Order, number_signals};
use ssa_core::{block_terms_of, drives_of, links_of, process_keys};
use ssa_nodes::Parts;
use std::alloc::Global;
use text_core::NoMemory;

/// What lowering looks things up in, for an accepted design and an order of its driven signals.
pub(crate) fn parts_of<'a>(
    alloc: Global,
    design: &'a Design,
    order: &'a Order,
) -> Result<Parts<'a>, NoMemory>
    requires accepted { verdict (design_of design.now) ≡ None }
    requires order { TellsOrder (design_of design.now) order.now }
    ensures parts { IfOk result HasParts }
    ensures design { IfOk result (λ parts. design_in parts ≡ design_of design.now) }
    ensures order { IfOk result (λ parts. parts.order.now ≡ order.now) }
{
    let (maps, pairs) = number_signals(alloc, design)?;
    let count = pairs.len();
    let links = links_of(alloc, design)?;
    let keys = process_keys(alloc, design)?;
    let blocks = block_terms_of(alloc, design)?;
    let drives = drives_of(alloc, design, &maps, count, &links, &keys)?;
    let nobody = NameMap::new(alloc);
    Ok(Parts {
        design,
        order,
        maps,
        count,
        links,
        keys,
        blocks,
        drives,
        nobody,
    })
}
