//! What a trace keeps of the cycles that it has been in: registers, from which it can begin again.
//!
//! The cycles are taken in blocks of 256. Kept are the registers of the first cycle of each block that was entered, so that no seek has to
//! begin more than a block behind its cycle; and those of the cycles of one block, from its first on, so that who goes backwards over
//! a block settles it once more and not once for each of its cycles. All room is taken at the start.

ghost use Rattle.std.specs.Prelude.{◌≡◌, [], ◌<◌, ◌/◌, ◌%◌, All, IfOk, MatchOption, Some, ⊤, length, map, set, slice_get};
ghost use Rattle.sim_hist.specs.Recalled.{AreLong, blank_recalled, noted_first, noted_near, noted};

use bv_core::Bv;
use std::alloc::{AllocError, Global};
use std::marker::Model;

/// So many cycles are a block.
pub(crate) const BLOCK: u64 = 256;

/// Registers of cycles, by block.
#[derive(Drop)]
pub(crate) struct History {
    firsts: Vec<Vec<Bv>>,
    known: u64,
    near: Vec<Vec<Bv>>,
    block: u64,
    count: u64,
    width: usize,
    cycles: u64,
}

impl Model for History {
    ghost use Rattle.std.specs.Prelude.{map, take};
    ghost use Rattle.sim_hist.specs.Recalled.{Recalled, IsHistory};

    ghost Value = { Recalled };

    ghost view = { λ h. record {
      firsts = take h.known (map (λ row. row.items) h.firsts.items);
      block = h.block;
      near = take h.count
          (map (λ row. row.items) h.near.items);
      width = h.width;
      cycles = h.cycles;
    } };

    ghost invariant = { λ h. IsHistory (map (λ row. row.items) h.firsts.items) h.known (map (λ row. row.items) h.near.items) h.count h.width h.cycles };
}

/// So many rows, each a copy of this one.
fn rows(alloc: Global, count: u64, row: &[Bv]) -> Result<Vec<Vec<Bv>>, AllocError>
    ensures { IfOk result (λ rows. AreLong (map (λ row. row.items) rows.items) count (length row.now)) }
{
    let mut rows = Vec::new(alloc);
    for i in 0..count {
        rows.push(row.to_vec(alloc)?)?;
    }
    Ok(rows)
}

/// Writes a row over another.
fn put(rows: &mut [Vec<Bv>], place: usize, row: &[Bv])
    requires place { place < length rows.old }
    requires long { All (λ row'. length row'.items ≡ length row.now) rows.old }
    ensures { map (λ row. row.items) rows.new ≡ set (map (λ row. row.items) rows.old) place row.now }
{
    rows[place].copy_from_slice(row);
}

impl History {
    /// Nothing yet, with room for so many cycles and so many registers in each as these.
    pub(crate) fn new(alloc: Global, registers: &[Bv], cycles: u64) -> Result<History, AllocError>
        ensures { IfOk result (λ h. h ≡ blank_recalled (length registers.now) cycles) }
    {
        let firsts = rows(alloc, cycles.div_ceil(BLOCK), registers)?;
        let near = rows(alloc, cycles.min(BLOCK), registers)?;
        Ok(History {
            firsts,
            known: 0,
            near,
            block: 0,
            count: 0,
            width: registers.len(),
            cycles,
        })
    }

    /// Keeps the registers of a cycle that begins the next block.
    fn note_first(&mut self, t: u64, registers: &[Bv])
        requires cycle { t < self.old.cycles }
        requires long { length registers.now ≡ self.old.width }
        ensures { self.new ≡ noted_first t registers.now self.old }
    {
        if t / BLOCK == self.known && t % BLOCK == 0 {
            put(&mut self.firsts, self.known as usize, registers);
            self.known += 1;
        }
    }

    /// Keeps the registers of a cycle that is the next of the block that is near.
    fn note_near(&mut self, t: u64, registers: &[Bv])
        requires cycle { t < self.old.cycles }
        requires long { length registers.now ≡ self.old.width }
        ensures { self.new ≡ noted_near t registers.now self.old }
    {
        if t / BLOCK == self.block && t % BLOCK == self.count {
            put(&mut self.near, self.count as usize, registers);
            self.count += 1;
        }
    }

    /// Keeps the registers of a cycle, where they are the next that are to be kept. Takes no memory.
    pub(crate) fn note(&mut self, t: u64, registers: &[Bv])
        requires cycle { t < self.old.cycles }
        requires long { length registers.now ≡ self.old.width }
        ensures { self.new ≡ noted t registers.now self.old }
    {
        self.note_first(t, registers);
        self.note_near(t, registers);
    }

    /// Takes this block for the one that is near: none of its cycles is kept yet. Takes no memory.
    pub(crate) fn come_to(&mut self, block: u64)
        ensures { self.new ≡ record self.old { block = block; near = [] } }
    {
        self.block = block;
        self.count = 0;
    }

    /// The registers of a cycle of the block that is near. None where they are not kept.
    pub(crate) fn near(&self, t: u64) -> Option<&[Bv]>
        ensures { MatchOption result ⊤ (λ row. (t / 256 ≡ self.now.block) × (slice_get self.now.near (t % 256) ≡ Some row.now)) }
    {
        if t / BLOCK == self.block && t % BLOCK < self.count {
            Some(&self.near[(t % BLOCK) as usize])
        } else {
            None
        }
    }

    /// The registers of the first cycle of a block that was entered.
    pub(crate) fn first(&self, block: u64) -> &[Bv]
        requires { block < length self.now.firsts }
        ensures { slice_get self.now.firsts block ≡ Some result.now }
    {
        &self.firsts[block as usize]
    }
}
