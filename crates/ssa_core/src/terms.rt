//! The terms of all blocks of a design, variant by variant. The widths of a variant's signals are looked up once.

ghost use Rattle.std.specs.Prelude.{IfOk, None, ◌≡◌, map};
ghost use Rattle.names.specs.Maps.{value_of};
ghost use Rattle.list_core.specs.Lists.{EachOf};
ghost use Rattle.design_core.specs.DesignView.{design_of};
ghost use Rattle.design_core.specs.View.{block_of, variant_of};
ghost use Rattle.name_widths.specs.DeclaredWidths.{width_at};
ghost use Rattle.check_core.specs.Paths.{declared_width};
ghost use Rattle.check_core.specs.Verdict.{verdict};
ghost use Rattle.ssa_core.specs.Processes.{BlockFits, HaveTerms, TellBlocks, TellVariants, VariantFits, lists_of};

use block_net::{BlockTerms, block_terms};
use design_core::{Block, Design, Variant};
use name_widths::declared_in;
use names::NameMap;
use std::alloc::Global;
use text_core::NoMemory;

/// The terms of blocks in order, where names have these widths.
fn terms_of(
    alloc: Global,
    widths: &NameMap<i64>,
    blocks: &[Block],
) -> Result<Vec<BlockTerms>, NoMemory>
    requires { EachOf BlockFits (map block_of blocks.now) }
    ensures { IfOk result (λ terms. TellBlocks (width_at (value_of widths.now)) terms.items (map block_of blocks.now)) }
{
    let mut terms = Vec::new(alloc);
    for block in blocks {
        terms.push(block_terms(alloc, widths, block)?)?;
    }
    Ok(terms)
}

/// The terms of the blocks of a variant in order.
fn variant_terms(alloc: Global, variant: &Variant) -> Result<Vec<BlockTerms>, NoMemory>
    requires { VariantFits (variant_of variant.now) }
    ensures { IfOk result (λ terms. TellBlocks (declared_width (variant_of variant.now).signals) terms.items (variant_of variant.now).blocks) }
{
    let widths = declared_in(alloc, variant.signals.items())?;
    terms_of(alloc, &widths, &variant.blocks)
}

/// The terms of the blocks of variants in order.
fn terms_of_variants(alloc: Global, variants: &[Variant]) -> Result<Vec<Vec<BlockTerms>>, NoMemory>
    requires { EachOf VariantFits (map variant_of variants.now) }
    ensures { IfOk result (λ terms. TellVariants (lists_of terms.items) (map variant_of variants.now)) }
{
    let mut all = Vec::new(alloc);
    for variant in variants {
        all.push(variant_terms(alloc, variant)?)?;
    }
    Ok(all)
}

/// The terms of each block of each variant of an accepted design: each block is run once.
pub fn block_terms_of(alloc: Global, design: &Design) -> Result<Vec<Vec<BlockTerms>>, NoMemory>
    requires { verdict (design_of design.now) ≡ None }
    ensures { IfOk result (λ terms. HaveTerms (design_of design.now) (lists_of terms.items)) }
{
    terms_of_variants(alloc, &design.variants)
}
