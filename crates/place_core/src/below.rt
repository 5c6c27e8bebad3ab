//! The instances that stand in each instance: one for each of its children, in order. One pass over all instances puts each behind the
//! others of its parent, so that no instance asks all others.

ghost use Rattle.std.specs.Prelude.{◌≡◌, ◌<◌, [], length, IfOk, OnOk};
ghost use Rattle.design_core.specs.DesignView.{design_of};
ghost use Rattle.design_exec.specs.Processes.{numbers_below};
ghost use Rattle.place_core.specs.Below.{AreLists, PutsBelow, PutsNumber, PutsSome, lists_of, none_below, some_below};

use design_core::{Design, Instance, in_32_bits};
use std::alloc::Global;
use text_core::NoMemory;

/// So many lists without a number.
fn no_numbers(alloc: Global, count: usize) -> Result<Vec<Vec<u32>>, NoMemory>
    ensures { IfOk result (λ lists. AreLists count none_below (lists_of lists.items)) }
{
    let mut lists = Vec::new(alloc);
    for _ in 0..count {
        lists.push(Vec::new(alloc))?;
    }
    Ok(lists)
}

/// Puts a number behind the others of a parent.
fn put_number(lists: &mut [Vec<u32>], parent: u32, number: u32) -> Result<(), NoMemory>
    requires { parent < length lists.old }
    ensures { OnOk result (PutsNumber parent number (lists_of lists.old) (lists_of lists.new)) }
{
    let list = &mut lists[parent as usize];
    list.push(number)?;
    Ok(())
}

/// Puts the number of an instance behind the others of its parent, if it has one.
fn put_instance(lists: &mut [Vec<u32>], number: u32, instance: &Instance) -> Result<(), NoMemory>
    ensures { OnOk result (PutsBelow number instance.now (lists_of lists.old) (lists_of lists.new)) }
{
    if let Some(parent) = instance.parent {
        if (parent as usize) < lists.len() {
            put_number(lists, parent, number)?;
        }
    }
    Ok(())
}

/// The same of all instances in order.
fn put_instances(lists: &mut [Vec<u32>], instances: &[Instance]) -> Result<(), NoMemory>
    requires { AreLists (length lists.old) none_below (lists_of lists.old) }
    ensures { OnOk result (PutsSome instances.now (length lists.old) (lists_of lists.new)) }
{
    for (number, instance) in instances.iter().enumerate() {
        put_instance(lists, in_32_bits(number)?, instance)?;
    }
    Ok(())
}

/// Of each instance of a design the numbers of those that stand in it, in order.
pub fn numbers_by_parent(alloc: Global, design: &Design) -> Result<Vec<Vec<u32>>, NoMemory>
    ensures { IfOk result (λ lists. AreLists (length design.now.instances) (numbers_below (design_of design.now)) (lists_of lists.items)) }
{
    let instances = design.instances.items();
    let mut lists = no_numbers(alloc, instances.len())?;
    put_instances(&mut lists, instances)?;
    Ok(lists)
}
