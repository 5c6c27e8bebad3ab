//! The parts of a symbol table that a design tells without a net: variants and instances.

ghost use Rattle.std.specs.Prelude.{◌≡◌, IfOk, map};
ghost use Rattle.design_core.specs.View.{variant_of};
ghost use Rattle.lower_core.specs.Shape.{gen_part, instance_part, variant_part};

use design_core::{Instance, Variant};
use gen_scope::Scope;
use std::alloc::Global;
use symtab::{GenVariable, InstanceParts, VariantParts};
use text_core::{Listed, NoMemory, Text};

/// Generator variables with their numbers, listed.
pub(crate) fn gens_of(alloc: Global, gens: &Scope) -> Result<Listed<GenVariable>, NoMemory>
    ensures { IfOk result (λ parts. parts ≡ map gen_part gens.now) }
{
    let mut parts = Vec::new(alloc);
    for (name, value) in gens.list(alloc)? {
        parts.push(GenVariable { name, value })?;
    }
    Ok(Listed::new(parts))
}

/// A variant: its module, and the parameters that it was made with.
fn variant_copy(alloc: Global, variant: &Variant) -> Result<VariantParts, NoMemory>
    ensures { IfOk result (λ part. part ≡ variant_part (variant_of variant.now)) }
{
    Ok(VariantParts {
        module: Text::new(alloc, variant.module.bytes())?,
        gens: gens_of(alloc, &variant.params)?,
    })
}

/// The variants of a design, in order.
pub(crate) fn variants_of(
    alloc: Global,
    variants: &[Variant],
) -> Result<Listed<VariantParts>, NoMemory>
    ensures { IfOk result (λ parts. parts ≡ map variant_part (map variant_of variants.now)) }
{
    let mut parts = Vec::new(alloc);
    for variant in variants {
        parts.push(variant_copy(alloc, variant)?)?;
    }
    Ok(Listed::new(parts))
}

/// An instance: its path, and the number of its variant.
fn instance_copy(alloc: Global, instance: &Instance) -> Result<InstanceParts, NoMemory>
    ensures { IfOk result (λ part. part ≡ instance_part instance.now) }
{
    Ok(InstanceParts {
        path: Text::new(alloc, instance.path.bytes())?,
        variant: instance.variant,
    })
}

/// The instances of a design, in order.
pub(crate) fn instances_of(
    alloc: Global,
    instances: &[Instance],
) -> Result<Listed<InstanceParts>, NoMemory>
    ensures { IfOk result (λ parts. parts ≡ map instance_part instances.now) }
{
    let mut parts = Vec::new(alloc);
    for instance in instances {
        parts.push(instance_copy(alloc, instance)?)?;
    }
    Ok(Listed::new(parts))
}
