//! The variants of a design, found among its instances: two instances of a module with equal parameters are of one variant, numbered by the first of
//! them.

ghost use Rattle.std.specs.Prelude.{◌≡◌, ◌<◌, ◌^◌, IfOk, OnOk, length, map};
ghost use Rattle.elab_core.specs.Design.{instance_in, variants_of};
ghost use Rattle.elab_core.specs.View.{instance_of};
ghost use Rattle.gen_elab.specs.Keys.{kept, key_of, numbers_of};

use crate::variants::Variants;
use elab_core::Instance;
use std::alloc::Global;
use text_core::{NoMemory, Text};

/// The variants of the instances, and the number of each instance's.
#[tactic(auto, using(crate::proofs::VariantLemmas::variant_steps))]
pub(crate) fn variant_numbers(
    alloc: Global,
    instances: &[Instance],
) -> Result<(Variants, Vec<usize>), NoMemory>
    ensures variants { IfOk result (λ found. found.0 ≡ map key_of (variants_of (map instance_of instances.now))) }
    ensures numbers { IfOk result (λ found. found.1.items ≡ numbers_of (map instance_of instances.now)) }
{
    let mut variants = Variants::new(alloc);
    let mut numbers = Vec::with_capacity(alloc, instances.len())?;
    for instance in instances {
        let number = variants.insert(alloc, instance.place, &instance.params)?;
        numbers.push(number)?;
    }
    Ok((variants, numbers))
}

/// The instances of the design, with the numbers of their variants.
#[tactic(auto, using(crate::proofs::VariantLemmas::few_variants))]
pub(crate) fn design_instances(
    alloc: Global,
    instances: &[Instance],
    numbers: &[usize],
) -> Result<Vec<design_core::Instance>, NoMemory>
    requires numbers { numbers.now ≡ numbers_of (map instance_of instances.now) }
    requires few { length instances.now < 2 ^ 32 }
    ensures { IfOk result (λ made. made.items ≡ map (instance_in (variants_of (map instance_of instances.now))) (map instance_of instances.now)) }
{
    let mut made = Vec::with_capacity(alloc, instances.len())?;
    for index in 0..instances.len() {
        let instance = &instances[index];
        let path = Text::new(alloc, instance.path.bytes())?;
        made.push(design_core::Instance {
            path,
            variant: numbers[index] as u32,
            parent: instance.parent,
        })?;
    }
    Ok(made)
}

/// Keeps an instance whose variant is not among the first ones yet.
#[tactic(auto, using(crate::proofs::VariantLemmas::map_pushed))]
fn keep(firsts: &mut Vec<Instance>, instance: Instance, number: usize) -> Result<(), NoMemory>
    ensures { OnOk result (map instance_of firsts.new.items ≡ kept (map instance_of firsts.old.items) (instance_of instance) number) }
{
    if number == firsts.len() {
        firsts.push(instance)?;
    }
    Ok(())
}

/// The first instance of each variant.
pub(crate) fn first_instances(
    alloc: Global,
    instances: Vec<Instance>,
    numbers: &[usize],
) -> Result<Vec<Instance>, NoMemory>
    requires { numbers.now ≡ numbers_of (map instance_of instances.items) }
    ensures { IfOk result (λ firsts. map instance_of firsts.items ≡ variants_of (map instance_of instances.items)) }
{
    let mut firsts = Vec::new(alloc);
    let mut index = 0;
    for instance in instances {
        keep(&mut firsts, instance, numbers[index])?;
        index += 1;
    }
    Ok(firsts)
}
