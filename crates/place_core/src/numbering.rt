//! The signals of all instances get numbers in the order of the design; of two of one name in an instance the first has the number.

ghost use Rattle.std.specs.Prelude.{◌≡◌, IfOk, OnOk};
ghost use Rattle.design_core.specs.DesignView.{design_of};
ghost use Rattle.names.specs.Maps.{no_value, value_of};
ghost use Rattle.place_core.specs.Numbering.{AreCounted, count_signal, count_signals, count_instances, numbers_of};

use design_core::{Design, Signal, Variant, in_32_bits, signals_of};
use names::NameMap;
use std::alloc::Global;
use text_core::NoMemory;

/// Gives a signal of an instance the next number, unless its name has one.
fn count_signal(
    alloc: Global,
    numbers: &mut NameMap<u32>,
    pairs: &mut Vec<(u32, u32)>,
    instance: u32,
    place: u32,
    name: &[u8],
) -> Result<(), NoMemory>
    ensures { OnOk result ((value_of numbers.new, pairs.new.items) ≡ count_signal instance place name.now (value_of numbers.old, pairs.old.items)) }
{
    if numbers.get(name).is_some() {
        return Ok(());
    }
    let number = in_32_bits(pairs.len())?;
    numbers.put(alloc, name, number)?;
    pairs.push((instance, place))?;
    Ok(())
}

/// The same of an instance's signals in order.
#[tactic(auto, using(crate::proofs::Counted::next_signal, crate::proofs::Counted::last_signal))]
fn count_signals(
    alloc: Global,
    numbers: &mut NameMap<u32>,
    pairs: &mut Vec<(u32, u32)>,
    instance: u32,
    signals: &[Signal],
) -> Result<(), NoMemory>
    ensures { OnOk result ((value_of numbers.new, pairs.new.items) ≡ count_signals instance 0 signals.now (value_of numbers.old, pairs.old.items)) }
{
    for (place, signal) in signals.iter().enumerate() {
        let place = in_32_bits(place)?;
        count_signal(alloc, numbers, pairs, instance, place, signal.name.bytes())?;
    }
    Ok(())
}

/// The numbers of an instance's signals.
fn count_instance(
    alloc: Global,
    pairs: &mut Vec<(u32, u32)>,
    instance: u32,
    signals: &[Signal],
) -> Result<NameMap<u32>, NoMemory>
    ensures { IfOk result (λ numbers. (value_of numbers, pairs.new.items) ≡ count_signals instance 0 signals.now (no_value, pairs.old.items)) }
{
    let mut numbers = NameMap::new(alloc);
    count_signals(alloc, &mut numbers, pairs, instance, signals)?;
    Ok(numbers)
}

/// Numbers for the signals of all instances, one for the first of each name, in the order of the design: a map for each
/// instance, and the pairs that have numbers.
#[tactic(auto, using(crate::proofs::Counted::next_instance, crate::proofs::Counted::last_instance, crate::proofs::Counted::pushed))]
pub(crate) fn count_instances(
    alloc: Global,
    design: &Design,
    maps: &mut Vec<NameMap<u32>>,
    pairs: &mut Vec<(u32, u32)>,
) -> Result<(), NoMemory>
    ensures { OnOk result ((numbers_of maps.new.items, pairs.new.items)
        ≡ count_instances (design_of design.now) 0 design.now.instances (numbers_of maps.old.items, pairs.old.items)) }
{
    for (number, instance) in design.instances.items().iter().enumerate() {
        let number = in_32_bits(number)?;
        let signals = signals_of(&design.variants, instance.variant);
        maps.push(count_instance(alloc, pairs, number, signals)?)?;
    }
    Ok(())
}

/// The numbers of the signals of all instances, one for the first of each name, in the order of the design: a map for each
/// instance, and each number's instance with the place of the signal there.
pub fn number_signals(
    alloc: Global,
    design: &Design,
) -> Result<(Vec<NameMap<u32>>, Vec<(u32, u32)>), NoMemory>
    ensures { IfOk result (λ found. AreCounted (design_of design.now) (numbers_of found.0.items, found.1.items)) }
{
    let mut maps = Vec::new(alloc);
    let mut pairs = Vec::new(alloc);
    count_instances(alloc, design, &mut maps, &mut pairs)?;
    Ok((maps, pairs))
}
