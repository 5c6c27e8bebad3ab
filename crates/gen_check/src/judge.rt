//! Checks in the order of refusals, each over all instances before the next. A variant is judged once: its instances differ in their paths alone.

ghost use Rattle.std.specs.Prelude.{IfOk, map, option_map};
ghost use Rattle.design_core.specs.View.{variant_of};
ghost use Rattle.design_core.specs.DesignView.{design_of};
ghost use Rattle.check_core.specs.Faults.{Tells, fault_in as the_fault_in};
ghost use Rattle.check_core.specs.Verdict.{refused as the_refused, refused_at as the_refused_at, refused_by as the_refused_by, verdict};
ghost use Rattle.gen_check.specs.Judged.{AreClean};

use crate::fault::fault_in;
use check_core::{CheckFault, Refusal};
use check_names::{duplicate_name, unbound_input, unknown_name, unknown_port};
use check_paths::{latch, read_before_write, two_drivers, undriven};
use check_widths::{bad_width, width_mismatch};
use design_core::{Design, Instance, Variant};
use std::alloc::Global;

/// Refuses a variant among these for one thing.
fn refused(
    alloc: Global,
    refusal: Refusal,
    variants: &[Variant],
    variant: &Variant,
) -> Result<(), CheckFault>
    ensures { Tells result (the_refused refusal (map variant_of variants.now) (variant_of variant.now)) }
{
    match refusal {
        Refusal::UnknownName => unknown_name(alloc, variant),
        Refusal::DuplicateName => duplicate_name(alloc, variant),
        Refusal::BadWidth => bad_width(alloc, variant),
        Refusal::UnknownPort => unknown_port(alloc, variants, variant),
        Refusal::UnboundInput => unbound_input(alloc, variants, variant),
        Refusal::WidthMismatch => width_mismatch(alloc, variants, variant),
        Refusal::TwoDrivers => two_drivers(alloc, variant),
        Refusal::Undriven => undriven(alloc, variant),
        Refusal::Latch => latch(alloc, variant),
        Refusal::ReadBeforeWrite => read_before_write(alloc, variant),
    }
}

/// The same of a variant, as that of the instance of this path.
fn refused_in(
    alloc: Global,
    refusal: Refusal,
    variants: &[Variant],
    variant: &Variant,
    path: &[u8],
) -> Result<(), CheckFault>
    ensures { Tells result (option_map (the_fault_in path.now) (the_refused refusal (map variant_of variants.now) (variant_of variant.now))) }
{
    match refused(alloc, refusal, variants, variant) {
        Ok(()) => Ok(()),
        Err(fault) => Err(fault_in(alloc, path, fault)?),
    }
}

/// Refuses an instance for one thing.
fn refused_at(
    alloc: Global,
    refusal: Refusal,
    design: &Design,
    instance: &Instance,
) -> Result<(), CheckFault>
    ensures { Tells result (the_refused_at refusal (design_of design.now) instance.now) }
{
    match design.variants.get(instance.variant as usize) {
        Some(variant) => refused_in(
            alloc,
            refusal,
            &design.variants,
            variant,
            instance.path.bytes(),
        ),
        None => Ok(()),
    }
}

/// Refuses an instance for one thing, unless its variant is below the number of those that are judged; and how many are judged
/// then.
fn refused_once(
    alloc: Global,
    refusal: Refusal,
    design: &Design,
    judged: u64,
    instance: &Instance,
) -> Result<u64, CheckFault>
    ensures told { AreClean refusal (design_of design.now) judged → Tells result (the_refused_at refusal (design_of design.now) instance.now) }
    ensures judged { IfOk result (λ now. AreClean refusal (design_of design.now) judged → AreClean refusal (design_of design.now) now) }
{
    let variant = instance.variant as u64;
    if variant < judged {
        return Ok(judged);
    }
    refused_at(alloc, refusal, design, instance)?;
    if variant == judged {
        return Ok(variant + 1);
    }
    Ok(judged)
}

/// Refuses the first instance for one thing. All instances of a variant are alike up to their paths, so each variant is judged at
/// its first.
fn refused_by(alloc: Global, refusal: Refusal, design: &Design) -> Result<(), CheckFault>
    ensures { Tells result (the_refused_by (design_of design.now) refusal) }
{
    let mut judged = 0;
    for instance in design.instances.items() {
        judged = refused_once(alloc, refusal, design, judged, instance)?;
    }
    Ok(())
}

/// Checks an elaborated design: it is accepted exactly where nothing is refused in it. Else the answer is the first refusal in the
/// order of `Refusal`, in the first instance in preorder that has it, with its line, its name and the path of that instance. A
/// refusal has its place in that instance by the order of the signals as declared, then the children, each with its connections and
/// then its inputs, then the blocks with their statements in preorder; want of memory has none.
#[tactic(auto, using(check_core::proofs::Firsts::two_steps))]
pub fn check(alloc: Global, design: &Design) -> Result<(), CheckFault>
    ensures { Tells result (verdict (design_of design.now)) }
{
    refused_by(alloc, Refusal::UnknownName, design)?;
    refused_by(alloc, Refusal::DuplicateName, design)?;
    refused_by(alloc, Refusal::BadWidth, design)?;
    refused_by(alloc, Refusal::UnknownPort, design)?;
    refused_by(alloc, Refusal::UnboundInput, design)?;
    refused_by(alloc, Refusal::WidthMismatch, design)?;
    refused_by(alloc, Refusal::TwoDrivers, design)?;
    refused_by(alloc, Refusal::Undriven, design)?;
    refused_by(alloc, Refusal::Latch, design)?;
    refused_by(alloc, Refusal::ReadBeforeWrite, design)?;
    Ok(())
}
