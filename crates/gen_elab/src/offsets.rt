//! The first slot of each variant. Slots are numbered by file and line of the module and then by variant, so that they do not depend on where an instance
//! stands.

ghost use Rattle.std.specs.Prelude.{◌≡◌, ◌+◌, ◌<◌, ◌^◌, ℕ, [], true, IfOk, length, map, get_or};
ghost use Rattle.elab_core.specs.Design.{first_slot, statements_where};
ghost use Rattle.elab_core.specs.View.{instance_of};
ghost use Rattle.gen_elab.specs.Offsets.{all_statements, places_below, nothing_before, before_place, AreTotals, AreSlots, prefix_sums, total};

use crate::sizes::count_blocks;
use elab_core::Instance;
use std::alloc::Global;
use text_core::NoMemory;

/// How many statements the variants of each module have, by the module's place in the source.
fn totals(alloc: Global, firsts: &[Instance], modules: usize) -> Result<Vec<u32>, NoMemory>
    requires places { places_below modules (map instance_of firsts.now) ≡ true }
    requires few { all_statements (map instance_of firsts.now) < 2 ^ 32 }
    ensures { IfOk result (λ totals. AreTotals nothing_before modules (map instance_of firsts.now) totals.items) }
{
    let mut totals = vec![in alloc; 0u32; modules]?;
    for index in 0..firsts.len() {
        let first = &firsts[index];
        totals[first.place] += count_blocks(&first.content.blocks);
    }
    Ok(totals)
}

/// Each number becomes the sum of those before it.
fn sum_before(numbers: &mut [u32])
    requires { total numbers.old < 2 ^ 32 }
    ensures { numbers.new ≡ prefix_sums 0 numbers.old }
{
    let mut next = 0;
    for index in 0..numbers.len() {
        let number = numbers[index];
        numbers[index] = next;
        next += number;
    }
}

/// The first slot of each variant, where those of each module's begin at these.
fn first_slots(
    alloc: Global,
    firsts: &[Instance],
    mut starts: Vec<u32>,
) -> Result<Vec<u32>, NoMemory>
    requires places { places_below (length starts.items) (map instance_of firsts.now) ≡ true }
    requires few { all_statements (map instance_of firsts.now) < 2 ^ 32 }
    requires starts { AreTotals (before_place (map instance_of firsts.now)) (length starts.items) [] starts.items }
    ensures { IfOk result (λ slots. AreSlots (map instance_of firsts.now) (length firsts.now) slots.items) }
{
    let mut slots = Vec::with_capacity(alloc, firsts.len())?;
    for index in 0..firsts.len() {
        let first = &firsts[index];
        let slot = starts[first.place];
        slots.push(slot)?;
        starts[first.place] = slot + count_blocks(&first.content.blocks);
    }
    Ok(slots)
}

/// The first slot of each variant, of these first instances of variants of so many modules.
#[tactic(auto, using(crate::proofs::OffsetLemmas::offsets))]
pub(crate) fn slots_of(
    alloc: Global,
    firsts: &[Instance],
    modules: usize,
) -> Result<Vec<u32>, NoMemory>
    requires places { places_below modules (map instance_of firsts.now) ≡ true }
    requires few { all_statements (map instance_of firsts.now) < 2 ^ 32 }
    ensures { IfOk result (λ slots. AreSlots (map instance_of firsts.now) (length firsts.now) slots.items) }
{
    let mut starts = totals(alloc, firsts, modules)?;
    sum_before(&mut starts);
    first_slots(alloc, firsts, starts)
}
