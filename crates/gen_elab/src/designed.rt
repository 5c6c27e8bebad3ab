//! The design of the instances of a walk: bodies are kept once a variant, and slots are put on their statements.

ghost use Rattle.std.specs.Prelude.{◌≡◌, ◌+◌, ◌-◌, ◌<◌, ◌≤◌, ◌^◌, true, IfOk, length, map};
ghost use Rattle.design_core.specs.View.{block_of, child_of, variant_of};
ghost use Rattle.elab_core.specs.Design.{designed as the_design, block_from, blocks_size, size, name_at, numbered_blocks, numbered_variant};
ghost use Rattle.elab_core.specs.View.{child_of as met_child, instance_of};
ghost use Rattle.gen_elab.specs.Keys.{key_child, key_of, key_variant};
ghost use Rattle.gen_elab.specs.Offsets.{all_statements, places_below, AreSlots};
ghost use Rattle.design_core.specs.DesignView.{design_of};
ghost use Rattle.design_core.specs.WellFormed.{IsDesign};
ghost use Rattle.gen_tree.specs.View.{lent_of};
ghost use Rattle.std.specs.List.{enumerate_from};

use crate::finish::{design_instances, first_instances, variant_numbers};
use crate::offsets::slots_of;
use crate::slots::number;
use crate::variants::Variants;
use design_core::{Block, Child, Design, Variant};
use elab_core::{Content, Instance};
use gen_tree::Module;
use std::alloc::Global;
use text_core::{Listed, NoMemory, Text};

/// A block whose statements have slots from this one on, and the slot behind them.
fn numbered_block(alloc: Global, block: Block, first: u32) -> (Block, u32)
    requires { first + size (block_of block).body < 2 ^ 32 }
    ensures block { block_of result.0 ≡ block_from first (block_of block) }
    ensures next { result.1 ≡ first + size (block_of block).body }
{
    let Block {
        line,
        clocked,
        mut body,
    } = block;
    let next = number(alloc, &mut body, first);
    (
        Block {
            line,
            clocked,
            body,
        },
        next,
    )
}

/// Blocks whose statements have slots from this one on.
#[tactic(auto, using(crate::proofs::DesignLemmas::turns))]
fn number_blocks(alloc: Global, blocks: Vec<Block>, first: u32) -> Result<Vec<Block>, NoMemory>
    requires { first + blocks_size (map block_of blocks.items) < 2 ^ 32 }
    ensures { IfOk result (λ made. map block_of made.items ≡ numbered_blocks first (map block_of blocks.items)) }
{
    let mut made = Vec::with_capacity(alloc, blocks.len())?;
    let mut next = first;
    for block in blocks {
        let (block, after) = numbered_block(alloc, block, next);
        made.push(block)?;
        next = after;
    }
    Ok(made)
}

/// A child with its variant by number.
#[tactic(auto, unfolding(elab_core::specs::View::child_of), using(crate::proofs::KeyLemmas::place_few))]
fn child(alloc: Global, variants: &Variants, met: elab_core::Child) -> Result<Child, NoMemory>
    requires { length variants.now < 2 ^ 32 - 1 }
    ensures { IfOk result (λ child. child_of child ≡ key_child variants.now (met_child met)) }
{
    let elab_core::Child {
        line,
        name,
        place,
        params,
        conns,
    } = met;
    let variant = variants.place_of(alloc, place, &params)?;
    Ok(Child {
        line,
        name,
        variant: variant as u32,
        conns,
    })
}

/// Children with their variants by number.
#[tactic(auto, using(crate::proofs::DesignLemmas::turns))]
fn children(
    alloc: Global,
    variants: &Variants,
    met: Vec<elab_core::Child>,
) -> Result<Vec<Child>, NoMemory>
    requires { length variants.now < 2 ^ 32 - 1 }
    ensures { IfOk result (λ made. map child_of made.items ≡ map (key_child variants.now) (map met_child met.items)) }
{
    let mut made = Vec::with_capacity(alloc, met.len())?;
    for one in met {
        let one = child(alloc, variants, one)?;
        made.push(one)?;
    }
    Ok(made)
}

/// The variant of a first instance of a module of this name, whose slots begin with this one.
#[tactic(auto, unfolding(elab_core::specs::View::instance_of, elab_core::specs::View::content_of))]
fn variant(
    alloc: Global,
    variants: &Variants,
    name: Text,
    slot: u32,
    first: Instance,
) -> Result<Variant, NoMemory>
    requires few { length variants.now < 2 ^ 32 - 1 }
    requires slots { slot + blocks_size (instance_of first).content.blocks < 2 ^ 32 }
    ensures { IfOk result (λ made. variant_of made ≡ key_variant variants.now name slot (instance_of first)) }
{
    let Instance {
        path: _,
        parent: _,
        place: _,
        params,
        content,
    } = first;
    let Content {
        signals,
        children: met,
        blocks,
    } = content;
    let children = children(alloc, variants, met)?;
    let blocks = number_blocks(alloc, blocks, slot)?;
    Ok(Variant {
        module: name,
        params,
        signals: Listed::new(signals),
        children,
        blocks,
    })
}

/// The name of the module at this place.
fn module_name(alloc: Global, modules: &[&Module], place: usize) -> Result<Text, NoMemory>
    ensures { IfOk result (λ name. name ≡ name_at place (lent_of modules.now)) }
{
    match modules.get(place) {
        Some(module) => Text::new(alloc, module.name.bytes()),
        None => Ok(Text::empty(alloc)),
    }
}

/// The variants of these first instances, whose slots begin with these.
#[tactic(auto, using(crate::proofs::DesignLemmas::turns))]
fn all_variants(
    alloc: Global,
    variants: &Variants,
    modules: &[&Module],
    firsts: Vec<Instance>,
    slots: &[u32],
) -> Result<Vec<Variant>, NoMemory>
    requires variants { variants.now ≡ map key_of (map instance_of firsts.items) }
    requires few { length firsts.items < 2 ^ 32 - 1 }
    requires small { all_statements (map instance_of firsts.items) < 2 ^ 32 }
    requires slots { AreSlots (map instance_of firsts.items) (length firsts.items) slots.now }
    ensures { IfOk result (λ made. map variant_of made.items ≡ map (numbered_variant (lent_of modules.now) (map instance_of firsts.items))
        (enumerate_from 0 (map instance_of firsts.items))) }
{
    let mut made = Vec::with_capacity(alloc, firsts.len())?;
    let mut index = 0;
    for first in firsts {
        let name = module_name(alloc, modules, first.place)?;
        let variant = variant(alloc, variants, name, slots[index], first)?;
        made.push(variant)?;
        index += 1;
    }
    Ok(made)
}

/// The design of these instances, with this module at its top.
pub(crate) fn designed(
    alloc: Global,
    modules: &[&Module],
    top: &[u8],
    instances: Vec<Instance>,
) -> Result<Design, NoMemory>
    requires few { length instances.items ≤ 4096 }
    requires small { all_statements (map instance_of instances.items) ≤ 200000 }
    requires places { places_below (length modules.now) (map instance_of instances.items) ≡ true }
    requires kept { IsDesign (the_design (lent_of modules.now) top.now (map instance_of instances.items)) }
    ensures { IfOk result (λ design. design_of design ≡ the_design (lent_of modules.now) top.now (map instance_of instances.items)) }
{
    let (keys, numbers) = variant_numbers(alloc, &instances)?;
    let made = design_instances(alloc, &instances, &numbers)?;
    let firsts = first_instances(alloc, instances, &numbers)?;
    let slots = slots_of(alloc, &firsts, modules.len())?;
    let variants = all_variants(alloc, &keys, modules, firsts, &slots)?;
    let top = Text::new(alloc, top)?;
    Ok(Design {
        top,
        variants,
        instances: Listed::new(made),
    })
}
