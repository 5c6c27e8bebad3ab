//! What drives each signal, beside its number: a link, or the block that assigns it.

ghost use Rattle.std.specs.Prelude.{◌≡◌, ◌≤◌, ◌<◌, ℕ, true, None, Some, length, slice_get, slice_index_or, IfOk, OnOk};
ghost use Rattle.exec_core.specs.Block.{Name};
ghost use Rattle.exec_core.specs.Design.{Process, place};
ghost use Rattle.design_core.specs.DesignView.{design_of};
ghost use Rattle.names.specs.Known.{has};
ghost use Rattle.place_core.specs.Assigned.{names_at};
ghost use Rattle.place_core.specs.Numbering.{number_in, numbers_of};
ghost use Rattle.ssa_core.specs.declared.drive.Drive.TheVariants as drives;
ghost use Rattle.ssa_core.specs.Drives.{AreApart, AreDrives, Covers, DrivesPlace, Grows, IsDrivenBy, LinksBefore, ProcessesBefore, put_at};

use crate::{Link, ProcessKey};
use design_core::{Block, Design, blocks_of, in_32_bits};
use names::NameMap;
use place_core::assigned_in;
use std::alloc::Global;
use text_core::NoMemory;

/// What drives a signal.
#[derive(Clone, Copy)]
pub enum Drive {
    /// The link of this number.
    Link(u32),
    /// The process of this number.
    Process(u32),
}

/// The number of the signal of this name of an instance, if it has one.
pub fn number_of(maps: &[NameMap<u32>], instance: u32, name: &[u8]) -> Option<u32>
    ensures { result ≡ number_in (numbers_of maps.now) (place instance name.now) }
{
    match maps.get(instance as usize) {
        Some(map) => map.get(name),
        None => None,
    }
}

/// Puts what drives a signal beside its number, if it has one.
fn put(list: &mut [Option<Drive>], number: Option<u32>, drive: Drive)
    requires { (n : ℕ) → number ≡ Some n → n < length list.old }
    ensures { list.new ≡ put_at number drive list.old }
{
    if let Some(number) = number {
        list[number as usize] = Some(drive);
    }
}

/// Puts each link beside the number of the signal that it goes to.

fn put_links(
    list: &mut [Option<Drive>],
    maps: &[NameMap<u32>],
    links: &[Link<'_>],
    design: &Design,
    keys: &[ProcessKey],
) -> Result<(), NoMemory>
    requires apart { AreApart (length list.old) (numbers_of maps.now) }
    ensures grows { Grows (design_of design.now) links.now keys.now (numbers_of maps.now) list.old list.new }
    ensures driven { OnOk result (LinksBefore links.now (numbers_of maps.now) (length links.now) list.new) }
{
    for (place, link) in links.iter().enumerate() {
        let drive = Drive::Link(in_32_bits(place)?);
        put(list, number_of(maps, link.target, link.name), drive);
    }
    Ok(())
}

/// Puts a process beside the numbers of the signals of these names of its instance.

fn put_names(
    list: &mut [Option<Drive>],
    maps: &[NameMap<u32>],
    links: &[Link<'_>],
    design: &Design,
    keys: &[ProcessKey],
    instance: u32,
    names: &[&[u8]],
    drive: Drive,
)
    requires apart { AreApart (length list.old) (numbers_of maps.now) }
    requires drives { (x : Name) → has (names_at names.now) x ≡ true → DrivesPlace (design_of design.now) links.now keys.now (place instance x) drive }
    ensures { Covers (design_of design.now) links.now keys.now (numbers_of maps.now) instance (has (names_at names.now)) list.old list.new }
{
    for name in names {
        put(list, number_of(maps, instance, name), drive);
    }
}

/// Puts a process beside the numbers of the signals that its block assigns.

fn put_process(
    alloc: Global,
    list: &mut [Option<Drive>],
    maps: &[NameMap<u32>],
    links: &[Link<'_>],
    design: &Design,
    keys: &[ProcessKey],
    number: u32,
    key: ProcessKey,
) -> Result<(), NoMemory>
    requires apart { AreApart (length list.old) (numbers_of maps.now) }
    requires key { slice_get keys.now number ≡ Some key }
    ensures grows { Grows (design_of design.now) links.now keys.now (numbers_of maps.now) list.old list.new }
    ensures driven { OnOk result (IsDrivenBy (design_of design.now) (numbers_of maps.now) key list.new) }
{
    let blocks = blocks_of(&design.variants, key.variant);
    let Some(block) = blocks.get(key.block as usize) else {
        return Ok(());
    };
    let names = assigned_in(alloc, block.clocked, &block.body)?;
    let drive = Drive::Process(number);
    put_names(list, maps, links, design, keys, key.instance, &names, drive);
    Ok(())
}

/// Puts each process beside the numbers of the signals that it assigns.

fn put_processes(
    alloc: Global,
    list: &mut [Option<Drive>],
    maps: &[NameMap<u32>],
    links: &[Link<'_>],
    design: &Design,
    keys: &[ProcessKey],
) -> Result<(), NoMemory>
    requires apart { AreApart (length list.old) (numbers_of maps.now) }
    ensures grows { Grows (design_of design.now) links.now keys.now (numbers_of maps.now) list.old list.new }
    ensures driven { OnOk result (ProcessesBefore (design_of design.now) keys.now (numbers_of maps.now) (length keys.now) list.new) }
{
    for (place, key) in keys.iter().enumerate() {
        let number = in_32_bits(place)?;
        put_process(alloc, list, maps, links, design, keys, number, *key)?;
    }
    Ok(())
}

/// Puts each link and each process beside the numbers of the signals that it drives.
fn put_all(
    alloc: Global,
    list: &mut [Option<Drive>],
    maps: &[NameMap<u32>],
    links: &[Link<'_>],
    design: &Design,
    keys: &[ProcessKey],
) -> Result<(), NoMemory>
    requires apart { AreApart (length list.old) (numbers_of maps.now) }
    requires none { (n : ℕ) → slice_index_or list.old n None ≡ None }
    ensures { OnOk result (AreDrives (design_of design.now) links.now keys.now (length list.old) (numbers_of maps.now) list.new) }
{
    put_links(list, maps, links, design, keys)?;
    put_processes(alloc, list, maps, links, design, keys)?;
    Ok(())
}

/// What drives each signal of a design, by the numbers of its signals, of which there are `count`.
pub fn drives_of(
    alloc: Global,
    design: &Design,
    maps: &[NameMap<u32>],
    count: usize,
    links: &[Link<'_>],
    keys: &[ProcessKey],
) -> Result<Vec<Option<Drive>>, NoMemory>
    requires apart { AreApart count (numbers_of maps.now) }
    ensures { IfOk result (λ list. AreDrives (design_of design.now) links.now keys.now count (numbers_of maps.now) list.items) }
{
    let mut list = vec![in alloc; None; count]?;
    put_all(alloc, &mut list, maps, links, design, keys)?;
    Ok(list)
}
