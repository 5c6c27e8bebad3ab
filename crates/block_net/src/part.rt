//! A part put into what is pending for a key: what is above it, the new tree, and what is below it. A rest without bits is left out with
//! its `cat`.

ghost use Rattle.std.specs.Prelude.{◌≡◌, ◌<◌, ◌≤◌, ◌^◌, ◌-◌, [], IfOk, OnOk, Some, length};
ghost use Rattle.bv_core.specs.declared.operators.Op1.TheVariants.{Slice};
ghost use Rattle.tree_core.specs.Tree.{One};
ghost use Rattle.exec_core.specs.Exec.{on_one, on_two, write};
ghost use Rattle.exec_core.specs.Trees.{spliced, tree_with_high, tree_with_low};
ghost use Rattle.design_core.specs.Widths.{bits};
ghost use Rattle.design_exec.specs.Processes.{part_of};
ghost use Rattle.names.specs.Maps.{value_of};
ghost use Rattle.name_widths.specs.DeclaredWidths.{width_at};
ghost use Rattle.block_net.specs.Terms.{IsWithin, Stands, tree_at, tree_for, trees_of};
ghost use Rattle.block_net.specs.Logs.{key_of};
ghost use Rattle.block_net.specs.Parts.{PartFits};
ghost use Rattle.block_net.specs.Walks.{Fits, Grown, Shows, Walked, state_of};

use crate::held::Pending;
use crate::walk::Walk;
use crate::{Key, TermId};
use bit_sets::BitSet;
use design_core::{Op, bits};
use name_widths::bits_of;
use names::NameMap;
use std::alloc::Global;
use text_core::NoMemory;

/// The highest place of a width.
fn top_of(width: u64) -> u64
    ensures { result ≡ width - 1 }
{
    width.saturating_sub(1)
}

/// A place as terms have it.
fn place(n: u64) -> i64
    requires { n < 2 ^ 63 }
    ensures { bits result ≡ n }
{
    n as i64
}

impl Walk {
    /// The bits of a term from one down to another.
    fn between(&mut self, old: TermId, high: u64, low: u64) -> Result<Option<TermId>, NoMemory>
        requires fits { Fits self.old }
        requires old { old.0 < length self.old.terms }
        requires high { high < 2 ^ 63 }
        requires low { low < 2 ^ 63 }
        ensures grown { OnOk result (Grown self.old self.new) }
        ensures stands { IfOk result (λ id. Stands self.new.terms id (Some (One (Slice high low) (tree_at (trees_of self.old.terms) old.0)))) }
    {
        let part = self.slice(Some(old), place(high), place(low))?;
        Ok(part)
    }

    /// A tree with what is above it, of another.
    fn with_high(
        &mut self,
        width: u64,
        high: u8,
        old: TermId,
        value: Option<TermId>,
    ) -> Result<Option<TermId>, NoMemory>
        requires fits { Fits self.old }
        requires old { old.0 < length self.old.terms }
        requires within { IsWithin self.old.terms value }
        requires width { width < 2 ^ 63 }
        ensures grown { OnOk result (Grown self.old self.new) }
        ensures stands { IfOk result (λ id. Stands self.new.terms id
            (on_one (tree_with_high width high (tree_at (trees_of self.old.terms) old.0)) (tree_for self.old.terms value))) }
    {
        if u64::from(high) + 1 == width {
            return Ok(value);
        }
        let above = self.between(old, top_of(width), u64::from(high) + 1)?;
        let whole = self.binary(Op::Cat, above, value)?;
        Ok(whole)
    }

    /// A tree with what is below it, of another.
    fn with_low(
        &mut self,
        low: u8,
        old: TermId,
        value: Option<TermId>,
    ) -> Result<Option<TermId>, NoMemory>
        requires fits { Fits self.old }
        requires old { old.0 < length self.old.terms }
        requires within { IsWithin self.old.terms value }
        ensures grown { OnOk result (Grown self.old self.new) }
        ensures stands { IfOk result (λ id. Stands self.new.terms id
            (on_one (tree_with_low low (tree_at (trees_of self.old.terms) old.0)) (tree_for self.old.terms value))) }
    {
        if low == 0 {
            return Ok(value);
        }
        let below = self.between(old, top_of(u64::from(low)), 0)?;
        let whole = self.binary(Op::Cat, value, below)?;
        Ok(whole)
    }

    /// A tree with what is around it, of another.
    fn around(
        &mut self,
        width: u64,
        high: u8,
        low: u8,
        old: TermId,
        value: Option<TermId>,
    ) -> Result<Option<TermId>, NoMemory>
        requires fits { Fits self.old }
        requires old { old.0 < length self.old.terms }
        requires within { IsWithin self.old.terms value }
        requires width { width < 2 ^ 63 }
        ensures grown { OnOk result (Grown self.old self.new) }
        ensures stands { IfOk result (λ id. Stands self.new.terms id
            (on_one (spliced width (record { high = high; low = low }) (tree_at (trees_of self.old.terms) old.0)) (tree_for self.old.terms value))) }
    {
        let value = self.with_high(width, high, old, value)?;
        let whole = self.with_low(low, old, value)?;
        Ok(whole)
    }

    /// A part put into what was pending, where there is both.
    fn splice(
        &mut self,
        width: u64,
        high: u8,
        low: u8,
        old: Option<TermId>,
        value: Option<TermId>,
    ) -> Result<Option<TermId>, NoMemory>
        requires fits { Fits self.old }
        requires old { IsWithin self.old.terms old }
        requires within { IsWithin self.old.terms value }
        requires width { width < 2 ^ 63 }
        ensures grown { OnOk result (Grown self.old self.new) }
        ensures stands { IfOk result (λ id. Stands self.new.terms id
            (on_two (spliced width (record { high = high; low = low })) (tree_for self.old.terms old) (tree_for self.old.terms value))) }
    {
        match old {
            Some(old) => self.around(width, high, low, old, value),
            None => Ok(None),
        }
    }

    /// Sets a part of a key, from the high bit down to the low one.
    fn assign_part(
        &mut self,
        alloc: Global,
        widths: &NameMap<i64>,
        key: Key,
        high: u8,
        low: u8,
        value: Option<TermId>,
    ) -> Result<(), NoMemory>
        requires fits { Fits self.old }
        requires shows { Shows (width_at (value_of widths.now)) self.old }
        requires within { IsWithin self.old.terms value }
        requires high { high < 128 }
        requires low { low ≤ high }
        ensures { OnOk result (Walked (width_at (value_of widths.now)) self.old self.new []
            (write spliced (width_at (value_of widths.now)) (key_of key) (Some (record { high = high; low = low })) (tree_for self.old.terms value)
            (state_of self.old))) }
    {
        let old = self.pending_of(alloc, &key)?;
        let id = self.splice(bits_of(widths, key.name()), high, low, old.id, value)?;
        let part = BitSet::of_part(u32::from(high), u32::from(low));
        let bits = part.joined(old.bits);
        self.set(alloc, widths, key, Pending { id, bits })?;
        Ok(())
    }

    /// Sets a key, or a part of it.
    pub(crate) fn assign(
        &mut self,
        alloc: Global,
        widths: &NameMap<i64>,
        key: Key,
        part: Option<(i64, i64)>,
        value: Option<TermId>,
    ) -> Result<(), NoMemory>
        requires fits { Fits self.old }
        requires shows { Shows (width_at (value_of widths.now)) self.old }
        requires within { IsWithin self.old.terms value }
        requires part { PartFits (part_of part) }
        ensures { OnOk result (Walked (width_at (value_of widths.now)) self.old self.new []
            (write spliced (width_at (value_of widths.now)) (key_of key) (part_of part) (tree_for self.old.terms value) (state_of self.old))) }
    {
        match part {
            Some((high, low)) => self.assign_part(alloc, widths, key, bits(high), bits(low), value),
            None => {
                let bits = BitSet::All;
                self.set(alloc, widths, key, Pending { id: value, bits })
            }
        }
    }
}
