//! What a line, a path and a text stand for, where a breakpoint or a watch is armed; or why it is refused. That is the first of the two steps
//! in which one is armed. It takes all the memory that finding and binding take, and changes nothing.

ghost use Rattle.std.specs.Prelude.{◌≡◌, ◌<◌, ◌++◌, [], ◌∷◌, ℕ, All, IfOk, OnOk, Contains, length, filter, map, option_map, Some, Ok, Err, Result};
ghost use Rattle.std.specs.List.{list_any};
ghost use Rattle.cond_lang.specs.Faults.{Refuses};
ghost use Rattle.cond_lang.specs.Bound.{scope_of};
ghost use Rattle.cond_lang.specs.Judged.{Refusal, judged};
ghost use Rattle.cond_lang.specs.TextShown.{text_expr, text_offsets};
ghost use Rattle.machine_core.specs.Matching.{is_wanted};
ghost use Rattle.site_core.specs.Traps.{trap_place, traps_of, IsBit, IsFittingAt, IsTrapOf, traps_in, IsSpot};
ghost use Rattle.cond_lang.specs.Shown.{cond_tree, cond_width};
ghost use Rattle.machine_core.specs.Arming.{bit_refusal, value_refusal, fit_refusal, first_of, sited_on};
ghost use Rattle.symtab.specs.Lookups.{instances_of, binding_of};
ghost use Rattle.machine_core.specs.Reading.{Reader, IsReader};
ghost use Rattle.world_core.specs.Seen.{seen};
ghost use Rattle.trace_core.specs.Samples.{Samples};
ghost use Rattle.trace_world.specs.TraceWorld.{trace_world};
ghost use Rattle.site_core.specs.Sites.{site_answer, IsTold, TellsMade, TellsNone, has_slot, named_has, asked_instance, as_read, text_parts, refused_at, sited_of, IsPlaced};

use crate::fault::SiteFault;
use crate::sampled::is_wanted;
use crate::trap::Trap;
use cond_lang::{BindEnd, Cond, CondFault, CondText, bind, read_cond};
use std::alloc::{AllocError, Global};
use symtab::Table;
use text_core::{NoMemory, Text};

/// What is found for a breakpoint or a watch: its slots, the instance that was named, if one was, its text, if one was given, and where it
/// waits, slot after slot.
#[derive(Drop)]
pub struct Sited {
    pub slots: Vec<u32>,
    pub instance: Option<u32>,
    pub text: Option<CondText>,
    pub traps: Vec<Trap>,
}

impl Sited {
    /// Its slots, rising. Takes no memory.
    pub fn slots(&self) -> &[u32]
        ensures { result.now ≡ self.now.slots.items }
    {
        &self.slots
    }
}

/// Whether an instance has a slot.
fn has_slot(table: &Table, instance: u32, slot: u32) -> bool
    requires { slot < length table.now.slots }
    ensures { result ≡ has_slot table.now instance slot }
{
    for other in table.instances_of(slot) {
        if instance == *other {
            return true;
        }
    }
    false
}

/// Whether an instance has one of these slots.
fn has_one(table: &Table, instance: u32, slots: &[u32]) -> bool
    requires { All (λ k. k < length table.now.slots) slots.now }
    ensures { result ≡ list_any (has_slot table.now instance) slots.now }
{
    for slot in slots {
        if has_slot(table, instance, *slot) {
            return true;
        }
    }
    false
}

/// The instance of a path, if it has one of these slots; none where no path is given.
fn asked_instance(
    alloc: Global,
    table: &Table,
    slots: &[u32],
    path: Option<&str>,
) -> Result<Option<u32>, SiteFault>
    requires { All (λ k. k < length table.now.slots) slots.now }
    ensures { TellsMade (λ i. i) result (asked_instance table.now slots.now (option_map (λ p. p.now) path.entry)) }
{
    let Some(path) = path else {
        return Ok(None);
    };
    match table.instance_named(path) {
        Some(instance) if has_one(table, instance, slots) => Ok(Some(instance)),
        _ => Err(SiteFault::NoInstance {
            instance: Text::new(alloc, path.as_bytes())?,
        }),
    }
}

/// Whether an instance has a slot, if one was named.
fn named_has(table: &Table, named: Option<u32>, slot: u32) -> bool
    requires { slot < length table.now.slots }
    ensures { result ≡ named_has table.now named slot }
{
    match named {
        Some(instance) => has_slot(table, instance, slot),
        None => true,
    }
}

/// Of these slots those that the named instance has, or all of them.
fn slots_for(
    alloc: Global,
    table: &Table,
    slots: &[u32],
    named: Option<u32>,
) -> Result<Vec<u32>, AllocError>
    requires { All (λ k. k < length table.now.slots) slots.now }
    ensures slots { IfOk result (λ kept. kept.items ≡ filter (named_has table.now named) slots.now) }
{
    let mut kept = Vec::new(alloc);
    for slot in slots {
        if named_has(table, named, *slot) {
            kept.push(*slot)?;
        }
    }
    Ok(kept)
}

/// The expression that a text is, if one was given.
fn read_text(alloc: Global, cond: Option<&[u8]>) -> Result<Option<CondText>, SiteFault>
    ensures { (read : Reader) → IsReader read → TellsMade (option_map text_parts) result (as_read read (option_map (λ t. t.now) cond.entry)) }
{
    let Some(text) = cond else {
        return Ok(None);
    };
    match read_cond(alloc, text) {
        Ok(read) => Ok(Some(read)),
        Err(CondFault::At { offset }) => Err(SiteFault::BadCondAt { offset }),
        Err(CondFault::NoMemory) => Err(SiteFault::NoMemory),
    }
}

/// Why a text does not fit at a slot, by the end of its binding there.
fn fault_of(end: BindEnd, slot: u32) -> SiteFault
    ensures bit { (judged : Result ℕ Refusal) → Refuses end judged → IsTold (site_answer result) (bit_refusal slot judged) }
    ensures value { (judged : Result ℕ Refusal) → Refuses end judged → IsTold (site_answer result) (value_refusal slot judged) }
{
    match end {
        BindEnd::Unknown { name } => SiteFault::BadCondName { name },
        BindEnd::Removed { name } => SiteFault::CondRemoved { name, slot },
        BindEnd::Unset { name } => SiteFault::CondUnset { name, slot },
        BindEnd::Width { offset } => SiteFault::BadCondAt { offset },
        BindEnd::NoMemory => SiteFault::NoMemory,
    }
}

/// An expression that is a bit, where one is wanted.
fn demanded(cond: Cond, bit: bool) -> Result<Cond, SiteFault>
    ensures same { IfOk result (λ made. (cond_tree made ≡ cond_tree cond) × (cond_width made ≡ cond_width cond)) }
    ensures bit { IfOk result (λ made. IsBit bit (cond_width made)) }
    ensures tells { (slot : ℕ) → TellsNone result (fit_refusal bit slot (Ok (cond_width cond))) }
{
    if bit && cond.width() != 1 {
        return Err(SiteFault::BadCondAt { offset: 0 });
    }
    Ok(cond)
}

/// The expression that a text is at a slot of an instance.
fn bound(
    alloc: Global,
    table: &Table,
    slot: u32,
    instance: u32,
    text: &CondText,
    bit: bool,
) -> Result<Cond, SiteFault>
    requires { Contains (instances_of table.now slot) instance }
    ensures tells { TellsNone result (fit_refusal bit slot (judged (scope_of (binding_of table.now slot instance)) (text_expr text.now)
        (text_offsets text.now))) }
    ensures made { IfOk result (λ cond. IsFittingAt bit table.now slot instance (Some text.now) (Some cond)) }
{
    match bind(
        alloc,
        text,
        &|name: &str| table.binding(slot, instance, name),
    ) {
        Ok(cond) => demanded(cond, bit),
        Err(end) => Err(fault_of(end, slot)),
    }
}

/// Where is waited at a slot of an instance.
fn trap_at(
    alloc: Global,
    table: &Table,
    slot: u32,
    instance: u32,
    text: &Option<CondText>,
    bit: bool,
) -> Result<Trap, SiteFault>
    requires { Contains (instances_of table.now slot) instance }
    ensures tells { TellsNone result (refused_at bit table.now text.now (slot, instance)) }
    ensures place { IfOk result (λ t. trap_place t ≡ (slot, instance)) }
    ensures bound { IfOk result (λ t. IsFittingAt bit table.now slot instance text.now t.cond) }
{
    let cond = match text {
        Some(text) => Some(bound(alloc, table, slot, instance, text, bit)?),
        None => None,
    };
    Ok(Trap {
        slot,
        instance,
        cond,
    })
}

/// Puts an instance of a slot behind others, with the slot, unless another one was named.
fn push_spot(
    spots: &mut Vec<(u32, u32)>,
    slot: u32,
    instance: u32,
    named: Option<u32>,
) -> Result<(), NoMemory>
    ensures { OnOk result (spots.new.items ≡ spots.old.items ++ map (λ i. (slot, i)) (filter (is_wanted named) (instance ∷ []))) }
{
    if is_wanted(named, instance) {
        spots.push((slot, instance))?;
    }
    Ok(())
}

/// Puts the instances of a slot behind others, each with the slot; the named one alone, if one was named.
fn push_spots(
    spots: &mut Vec<(u32, u32)>,
    table: &Table,
    slot: u32,
    named: Option<u32>,
) -> Result<(), NoMemory>
    requires { slot < length table.now.slots }
    ensures { OnOk result (spots.new.items ≡ spots.old.items ++ traps_in table.now named slot) }
{
    for instance in table.instances_of(slot) {
        push_spot(spots, slot, *instance, named)?;
    }
    Ok(())
}

/// The slots and instances at which is waited: slot after slot, in preorder.
fn spots_of(
    alloc: Global,
    table: &Table,
    slots: &[u32],
    named: Option<u32>,
) -> Result<Vec<(u32, u32)>, NoMemory>
    requires { All (λ k. k < length table.now.slots) slots.now }
    ensures { IfOk result (λ spots. spots.items ≡ traps_of table.now named slots.now) }
{
    let mut spots = Vec::new(alloc);
    for slot in slots {
        push_spots(&mut spots, table, *slot, named)?;
    }
    Ok(spots)
}

/// Where is waited, at one of these after another.
fn traps_at(
    alloc: Global,
    table: &Table,
    spots: &[(u32, u32)],
    text: &Option<CondText>,
    bit: bool,
) -> Result<Vec<Trap>, SiteFault>
    requires { All (IsSpot table.now) spots.now }
    ensures tells { TellsNone result (first_of (map (refused_at bit table.now text.now) spots.now)) }
    ensures places { IfOk result (λ traps. map trap_place traps.items ≡ spots.now) }
    ensures each { IfOk result (λ traps. All (IsTrapOf bit table.now text.now) traps.items) }
{
    let mut traps = Vec::new(alloc);
    for spot in spots {
        let (slot, instance) = *spot;
        let trap = trap_at(alloc, table, slot, instance, text, bit)?;
        traps.push(trap)?;
    }
    Ok(traps)
}

/// Where is waited, slot after slot.
fn traps_for(
    alloc: Global,
    table: &Table,
    slots: &[u32],
    named: Option<u32>,
    text: &Option<CondText>,
    bit: bool,
) -> Result<Vec<Trap>, SiteFault>
    requires { All (λ k. k < length table.now.slots) slots.now }
    ensures tells { TellsNone result (first_of (map (refused_at bit table.now text.now) (traps_of table.now named slots.now))) }
    ensures places { IfOk result (λ traps. map trap_place traps.items ≡ traps_of table.now named slots.now) }
    ensures each { IfOk result (λ traps. All (IsTrapOf bit table.now text.now) traps.items) }
{
    let spots = spots_of(alloc, table, slots, named)?;
    traps_at(alloc, table, &spots, text, bit)
}

/// What is found on a line for a breakpoint or a watch: in one instance alone, if a path is given; with an expression, if a text is given,
/// which is to be a bit, where that is wanted.
///
/// Refused, in this order: no statement is on the line; no instance of that path has one there; the text is no expression; a name of it has
/// no value, its widths do not fit, or it is no bit where one is wanted, at a slot of an instance where would be waited.
pub fn sited_on(
    alloc: Global,
    table: &Table,
    line: u64,
    path: Option<&str>,
    text: Option<&[u8]>,
    bit: bool,
) -> Result<Sited, SiteFault>
    ensures told { (read : Reader) (s : Samples) → IsReader read
        → TellsMade sited_of result (sited_on read (seen (trace_world table.now s)) bit line (option_map (λ p. p.now) path.entry)
        (option_map (λ t. t.now) text.entry)) }
    ensures placed { IfOk result (IsPlaced bit table.now) }
{
    let _parts = table.parts();
    let all = table.slots_on(line);
    if all.is_empty() {
        return Err(SiteFault::NoSite { line });
    }
    let instance = asked_instance(alloc, table, all, path)?;
    let slots = slots_for(alloc, table, all, instance)?;
    let text = read_text(alloc, text)?;
    let traps = traps_for(alloc, table, &slots, instance, &text, bit)?;
    Ok(Sited {
        slots,
        instance,
        text,
        traps,
    })
}
