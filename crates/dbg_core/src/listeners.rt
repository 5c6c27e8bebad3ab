//! The listeners of a session: those that were handed in, and which of them remain. What is told to one that was dropped is told to
//! nobody, and its number stays its own.

ghost use Rattle.std.specs.Prelude.{◌≡◌, ◌<◌, ◌≤◌, length, map, option_map, is_some, set, slice_get, slice_index_or, Some, None, IfOk, OnErr, IsTrue};
ghost use Rattle.listen.specs.Pairs.{after};
ghost use Rattle.machine_core.specs.Machine.{remaining};
ghost use Rattle.machine_core.specs.Journal.{Noticed, closing_lines};
ghost use Rattle.dbg_core.specs.Answering.{dropped};
ghost use Rattle.dbg_core.specs.Alone.{without};

use listen::{Listener, StopNote};
use machine_core::{Body, Notice};
use std::alloc::Global;
use text_core::{Listed, NoMemory};

/// The listeners that were handed in, at most 65,536, each of which remains until it is dropped. A listener's number, from 0, is its
/// place among those that were handed in. The boxes can be reached, since a crate above that holds listeners behind a `&mut` has to tell
/// and to drop them by functions of its own.
#[derive(Drop)]
pub struct Listeners {
    pub boxes: Vec<Option<Box<dyn Listener>>>,
    alloc: Global,
    pub ghost few: { length boxes.items ≤ 65536 },
}

/// Tells a listener of a stop, if it was not dropped.
fn tell_one(to: &mut Option<Box<dyn Listener>>, note: &StopNote)
    ensures { option_map (λ b. heard b) to.new ≡ option_map (after note.now) (option_map (λ b. heard b) to.old) }
{
    if let Some(listener) = to {
        listener.stopped(note);
    }
}

/// Tells each listener of a stop, in order.
fn tell_each(all: &mut [Option<Box<dyn Listener>>], note: &StopNote)
    ensures { map (option_map (λ b. heard b)) all.new ≡ map (option_map (after note.now)) (map (option_map (λ b. heard b)) all.old) }
{
    for to in all.iter_mut() {
        tell_one(to, note);
    }
}

/// How many pairs a listener has.
fn pair_count(listener: &Box<dyn Listener>) -> usize
    ensures { result ≡ length (heard listener.now).pairs }
{
    listener.rows()
}

/// The pair of this number.
fn pair_at(listener: &Box<dyn Listener>, i: usize) -> (u64, u64)
    requires { i < length (heard listener.now).pairs }
    ensures { slice_get (heard listener.now).pairs i ≡ Some result }
{
    listener.row(i)
}

/// The pairs of a listener.
fn pairs_of(alloc: Global, listener: &Box<dyn Listener>) -> Result<Vec<(u64, u64)>, NoMemory>
    ensures { IfOk result (λ pairs. pairs.items ≡ (heard listener.now).pairs) }
{
    let mut pairs = Vec::new(alloc);
    for i in 0..pair_count(listener) {
        let pair = pair_at(listener, i);
        pairs.push(pair)?;
    }
    Ok(pairs)
}

/// The pairs of a listener that remains; none of one that was dropped.
fn pairs_left(
    alloc: Global,
    listener: &Option<Box<dyn Listener>>,
) -> Result<Vec<(u64, u64)>, NoMemory>
    ensures { IfOk result (λ pairs. IsTrue (is_some listener.now) → option_map (λ b. (heard b).pairs) listener.now ≡ Some pairs.items) }
{
    match listener {
        Some(listener) => pairs_of(alloc, listener),
        None => Ok(Vec::new(alloc)),
    }
}

/// Drops the listener of a number, if it remains.
fn leave_out_one(all: &mut [Option<Box<dyn Listener>>], k: u64)
    ensures { map (option_map (λ b. heard b)) all.new ≡ set (map (option_map (λ b. heard b)) all.old) k None }
{
    if k < all.len() as u64 {
        all[k as usize] = None;
    }
}

impl Listeners {
    /// The listeners in these boxes, at most 65,536 of them.
    pub fn new(alloc: Global, boxes: Vec<Box<dyn Listener>>) -> Result<Listeners, NoMemory>
        requires { length boxes.items ≤ 65536 }
        ensures { IfOk result (λ listeners. map (option_map (λ b. heard b)) listeners.boxes.items ≡ map (λ h. Some h) (map (λ b. heard b) boxes.items)) }
    {
        let mut kept = Vec::new(alloc);
        for one in boxes {
            kept.push(Some(one))?;
        }
        Ok(Listeners { boxes: kept, alloc })
    }

    /// How many were handed in, those that were dropped since among them. Takes no memory.
    pub fn count(&self) -> u32
        ensures { result ≡ length (map (option_map (λ b. heard b)) self.now.boxes.items) }
    {
        self.boxes.len() as u32
    }

    /// Whether this is the number of a listener that remains. Takes no memory.
    pub fn has(&self, k: u32) -> bool
        ensures { result ≡ is_some (slice_index_or (map (option_map (λ b. heard b)) self.now.boxes.items) k None) }
    {
        match self.boxes.get(k as usize) {
            Some(one) => one.is_some(),
            None => false,
        }
    }

    /// The pairs of a listener that remains.
    pub fn table(&self, k: u32) -> Result<Vec<(u64, u64)>, NoMemory>
        requires { IsTrue (is_some (slice_index_or (map (option_map (λ b. heard b)) self.now.boxes.items) k None)) }
        ensures { IfOk result (λ pairs. option_map (λ h. h.pairs) (slice_index_or (map (option_map (λ b. heard b)) self.now.boxes.items) k None)
            ≡ Some pairs.items) }
    {
        pairs_left(self.alloc, &self.boxes[k as usize])
    }

    /// Drops a listener that remains. Takes no memory.
    pub fn drop_one(&mut self, k: u32)
        requires { IsTrue (is_some (slice_index_or (map (option_map (λ b. heard b)) self.old.boxes.items) k None)) }
        ensures { map (option_map (λ b. heard b)) self.new.boxes.items ≡ set (map (option_map (λ b. heard b)) self.old.boxes.items) k None }
    {
        self.boxes[k as usize] = None;
    }

    /// Tells each listener that remains of a stop, in order. Takes no memory.
    pub(crate) fn tell(&mut self, note: &StopNote)
        ensures { map (option_map (λ b. heard b)) self.new.boxes.items
            ≡ map (option_map (after note.now)) (map (option_map (λ b. heard b)) self.old.boxes.items) }
    {
        tell_each(&mut self.boxes, note);
    }

    /// The numbers of those that remain, rising.
    pub fn remaining(&self) -> Result<Vec<u32>, NoMemory>
        ensures { IfOk result (λ numbers. numbers.items ≡ remaining (map (option_map (λ b. heard b)) self.now.boxes.items)) }
    {
        let mut numbers = Vec::new(self.alloc);
        for k in 0..self.count() {
            if self.has(k) {
                numbers.push(k)?;
            }
        }
        Ok(numbers)
    }

    /// The last line of the one of this number.
    fn closing_line(&self, k: u32) -> Result<Notice, NoMemory>
        requires { IsTrue (is_some (slice_index_or (map (option_map (λ b. heard b)) self.now.boxes.items) k None)) }
        ensures { IfOk result (λ notice. option_map (λ h. Notice.Rows k h.pairs)
            (slice_index_or (map (option_map (λ b. heard b)) self.now.boxes.items) k None) ≡ Some notice) }
    {
        let rows = self.table(k)?;
        Ok(Notice::Rows {
            k,
            rows: Listed::new(rows),
        })
    }

    /// The closing lines: one for each that remains, in order, with its pairs.
    pub fn closing_lines(&self) -> Result<Vec<Notice>, NoMemory>
        ensures { IfOk result (λ lines. map (λ n. Noticed n) lines.items ≡ closing_lines (map (option_map (λ b. heard b)) self.now.boxes.items)) }
    {
        let mut lines = Vec::new(self.alloc);
        for k in 0..self.count() {
            if self.has(k) {
                let line = self.closing_line(k)?;
                lines.push(line)?;
            }
        }
        Ok(lines)
    }

    /// What is answered to a request to drop a listener.
    pub(crate) fn drop_answer(&self, k: u64) -> Result<Body, NoMemory>
        ensures { IfOk result (λ body. (without (Some k) (map (option_map (λ b. heard b)) self.now.boxes.items), body)
            ≡ dropped (map (option_map (λ b. heard b)) self.now.boxes.items) k
            (slice_index_or (map (option_map (λ b. heard b)) self.now.boxes.items) k None)) }
    {
        if k >= u64::from(self.count()) || !self.has(k as u32) {
            return Ok(Body::NoListener { k });
        }
        let rows = self.table(k as u32)?;
        Ok(Body::Drop {
            rows: Listed::new(rows),
        })
    }

    /// Drops the listener of this number, if there is a number and that one remains. Takes no memory.
    pub(crate) fn leave_out(&mut self, k: Option<u64>)
        ensures { map (option_map (λ b. heard b)) self.new.boxes.items ≡ without k (map (option_map (λ b. heard b)) self.old.boxes.items) }
    {
        match k {
            Some(k) => leave_out_one(&mut self.boxes, k),
            None => {}
        }
    }
}
