//! The parts of a design's variants by the variant's number. A number that no variant has gives none.

ghost use Rattle.std.specs.Prelude.{◌≡◌, map};
ghost use Rattle.design_core.specs.View.{block_of, child_of, variant_of};
ghost use Rattle.design_core.specs.WellFormed.{blocks_at, children_at, signals_at};

use crate::{Block, Child, Signal, Variant};

/// The signals of a variant, by its number; none where there is no such variant.
pub fn signals_of(variants: &[Variant], variant: u32) -> &[Signal]
    ensures { result.now ≡ signals_at variant (map variant_of variants.now) }
{
    match variants.get(variant as usize) {
        Some(variant) => variant.signals.items(),
        None => &[],
    }
}

/// The children of a variant, by its number; none where there is no such variant.
pub fn children_of(variants: &[Variant], variant: u32) -> &[Child]
    ensures { map child_of result.now ≡ children_at variant (map variant_of variants.now) }
{
    match variants.get(variant as usize) {
        Some(variant) => &variant.children,
        None => &[],
    }
}

/// The blocks of a variant, by its number; none where there is no such variant.
pub fn blocks_of(variants: &[Variant], variant: u32) -> &[Block]
    ensures { map block_of result.now ≡ blocks_at variant (map variant_of variants.now) }
{
    match variants.get(variant as usize) {
        Some(variant) => &variant.blocks,
        None => &[],
    }
}
