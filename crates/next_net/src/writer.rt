//! Which process writes each register: the first that does.

ghost use Rattle.std.specs.Prelude.{◌≡◌, ◌<◌, ℕ, [], true, None, Some, length, slice_set, slice_index_or, IfOk, OnOk};
ghost use Rattle.exec_core.specs.Block.{Next, same_key};
ghost use Rattle.exec_core.specs.Design.{Process, writes_to};
ghost use Rattle.design_core.specs.DesignView.{design_of};
ghost use Rattle.design_exec.specs.Processes.{processes_of};
ghost use Rattle.block_net.specs.Logs.{key_of};
ghost use Rattle.block_net.specs.Walks.{among};
ghost use Rattle.place_core.specs.Numbering.{numbers_of};
ghost use Rattle.ssa_core.specs.Drives.{AreApart};
ghost use Rattle.ssa_core.specs.Processes.{process_at};
ghost use Rattle.ssa_nodes.specs.Parts.{HasParts, all_in, design_in};
ghost use Rattle.next_net.specs.Writers.{AreWriters, Marks, first_of, writes_by};

use block_net::{Key, assigned_by};
use design_core::{Design, blocks_of, in_32_bits};
use names::NameMap;
use ssa_core::{ProcessKey, number_of};
use ssa_nodes::Parts;
use std::alloc::{AllocError, Global};
use text_core::NoMemory;

/// No writers, at so many numbers.
fn no_writers(alloc: Global, count: usize) -> Result<Vec<Option<u32>>, AllocError>
    ensures count { IfOk result (λ list. length list.items ≡ count) }
    ensures none { IfOk result (λ list. (n : ℕ) → slice_index_or list.items n None ≡ None) }
{
    vec![in alloc; None; count]
}

/// Puts a process beside a number, unless another stands there.
fn put_first(list: &mut [Option<u32>], number: u32, process: u32)
    requires { number < length list.old }
    ensures { list.new ≡ slice_set list.old number (first_of true process (slice_index_or list.old number None)) }
{
    let found = list[number as usize];
    list[number as usize] = found.or(Some(process));
}

/// Puts a process beside the number of a register of an instance that a key names.
fn put_key(list: &mut [Option<u32>], maps: &[NameMap<u32>], instance: u32, process: u32, key: &Key)
    requires { AreApart (length list.old) (numbers_of maps.now) }
    ensures { Marks (numbers_of maps.now) process (writes_by instance (same_key (key_of key.now))) list.old list.new }
{
    if let Key::Next(name) = key {
        if let Some(number) = number_of(maps, instance, name.bytes()) {
            put_first(list, number, process);
        }
    }
}

/// The same of keys in order.
fn put_keys(
    list: &mut [Option<u32>],
    maps: &[NameMap<u32>],
    instance: u32,
    process: u32,
    keys: &[Key],
)
    requires { AreApart (length list.old) (numbers_of maps.now) }
    ensures { Marks (numbers_of maps.now) process (writes_by instance (among keys.now)) list.old list.new }
{
    for key in keys {
        put_key(list, maps, instance, process, key);
    }
}

/// Puts a process beside the numbers of the registers that it writes.
fn put_process(
    alloc: Global,
    list: &mut [Option<u32>],
    maps: &[NameMap<u32>],
    design: &Design,
    process: u32,
    key: ProcessKey,
) -> Result<(), NoMemory>
    requires { AreApart (length list.old) (numbers_of maps.now) }
    ensures { OnOk result ((b : Process) → process_at (design_of design.now) key ≡ Some b
        → Marks (numbers_of maps.now) process (λ q. writes_to q b) list.old list.new) }
{
    let blocks = blocks_of(&design.variants, key.variant);
    let Some(block) = blocks.get(key.block as usize) else {
        return Ok(());
    };
    let keys = assigned_by(alloc, block.clocked, &block.body)?;
    put_keys(list, maps, key.instance, process, &keys);
    Ok(())
}

/// Puts each process beside the numbers of the registers that it writes.
fn put_processes(alloc: Global, list: &mut [Option<u32>], parts: &Parts<'_>) -> Result<(), NoMemory>
    requires parts { HasParts parts.now }
    requires none { AreWriters [] parts.now.count (all_in parts.now) list.old }
    ensures { OnOk result (AreWriters (processes_of (design_in parts.now)).processes parts.now.count (all_in parts.now) list.new) }
{
    for (place, key) in parts.keys.iter().enumerate() {
        let process = in_32_bits(place)?;
        put_process(alloc, list, &parts.maps, parts.design, process, *key)?;
    }
    Ok(())
}

/// The process that writes each signal, by the signals' numbers: the first one where there are several.
pub(crate) fn writers_of(alloc: Global, parts: &Parts<'_>) -> Result<Vec<Option<u32>>, NoMemory>
    requires { HasParts parts.now }
    ensures { IfOk result (λ list. AreWriters (processes_of (design_in parts.now)).processes parts.now.count (all_in parts.now) list.items) }
{
    let mut list = no_writers(alloc, parts.count)?;
    put_processes(alloc, &mut list, parts)?;
    Ok(list)
}
