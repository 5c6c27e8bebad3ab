//! Which of the armed breakpoints may wait at a slot: those from one place among them up to another; and how many slots beside it have none, both
//! ways, as far as a search looks. So a search goes from slot to slot where one waits, and looks at few breakpoints there. What is armed or
//! disarmed changes this only where it waits, and in the slots that tell of there; it takes no memory once there is room for each slot.

ghost use Rattle.std.specs.Prelude.{◌≡◌, ℕ, ◌<◌, ◌≤◌, ◌-◌, ◌+◌, ◌^◌, true, List, [], ◌∷◌, ◌++◌, OnOk, length};
ghost use Rattle.slot_sched.specs.Spans.{holds, covers, span_of, FallsShort, IsNear, Narrows, TellGaps, are_covered, are_spanned, WaitBelow, AllWaitBelow};
ghost use Rattle.slot_sched.specs.declared.armed.Armed.{Armed};

use crate::armed::Armed;
use site_core::Trap;
use std::alloc::AllocError;

/// The places of breakpoints from one up to another; no places where both are the same. How many slots are known to have no places, from this
/// one on and from this one back. And whether it is cut off: no other slot tells of it.
#[derive(Clone, Copy)]
pub(crate) struct Span {
    pub(crate) from: u32,
    pub(crate) to: u32,
    pub(crate) ahead: u8,
    pub(crate) behind: u8,
    pub(crate) cut: bool,
}

/// A search looks at so many positions, so no slot tells of more.
const FAR: u8 = 64;

/// No places, and of no slot it is known.
const NONE: Span = Span {
    from: 0,
    to: 0,
    ahead: 0,
    behind: 0,
    cut: false,
};

/// No places, nor in those beside it.
const VACANT: Span = Span {
    from: 0,
    to: 0,
    ahead: FAR,
    behind: FAR,
    cut: false,
};

impl Span {
    /// So many slots are passed over from this one on or back, where so many are told to have no places: none where it has places itself.
    pub(crate) fn passed(self, told: u8) -> u32
        ensures here { 0 < result → self.to ≤ self.from }
        ensures most { 1 < result → result ≤ told }
    {
        if self.from < self.to {
            return 0;
        }
        u32::from(told.max(1))
    }

    /// These places, and those between, and one more. None other tells of it then.
    fn with(self, place: u32) -> Span
        requires { place < 2 ^ 32 - 1 }
        ensures has { holds result place ≡ true }
        ensures keeps { (j : ℕ) → holds self j ≡ true → holds result j ≡ true }
        ensures tells { (result.ahead ≡ self.ahead) × (result.behind ≡ self.behind) }
    {
        if self.to <= self.from {
            return Span {
                from: place,
                to: place + 1,
                cut: true,
                ..self
            };
        }
        Span {
            from: self.from.min(place),
            to: self.to.max(place + 1),
            cut: true,
            ..self
        }
    }
}

/// The places of a slot.
pub(crate) fn span_at(spans: &[Span], slot: u32) -> Span
    ensures { result ≡ span_of spans.now slot }
{
    match spans.get(slot as usize) {
        Some(span) => *span,
        None => NONE,
    }
}

/// Makes room for so many slots. Those that are new have no places.
pub(crate) fn grown(spans: &mut Vec<Span>, slots: u32) -> Result<(), AllocError>
    ensures long { OnOk result (slots ≤ length spans.new.items) }
    ensures keeps { (k j : ℕ) → covers spans.old.items k j ≡ true → covers spans.new.items k j ≡ true }
    ensures gaps { TellGaps spans.old.items → TellGaps spans.new.items }
{
    let slots = slots as usize;
    if spans.is_empty() {
        spans.resize(slots, VACANT)?;
    }
    if spans.len() < slots {
        spans.resize(slots, NONE)?;
    }
    Ok(())
}

/// Has no slot before this one tell of it.
fn cut_ahead(spans: &mut Vec<Span>, slot: u32)
    requires slot { slot < length spans.old.items }
    ensures long { length spans.new.items ≡ length spans.old.items }
    ensures narrows { Narrows spans.old.items spans.new.items }
    ensures short { IsNear spans.old.items → (k : ℕ) → k ≤ slot → k + (span_of spans.new.items k).ahead ≤ slot }
{
    let slot = slot as usize;
    for k in slot.saturating_sub(63)..slot + 1 {
        let span = spans[k];
        spans[k] = Span {
            ahead: span.ahead.min((slot - k) as u8),
            ..span
        };
    }
}

/// Has no slot behind this one tell of it.
fn cut_behind(spans: &mut Vec<Span>, slot: u32)
    requires slot { slot < length spans.old.items }
    ensures long { length spans.new.items ≡ length spans.old.items }
    ensures narrows { Narrows spans.old.items spans.new.items }
    ensures short { IsNear spans.old.items → (k : ℕ) → slot ≤ k → slot + (span_of spans.new.items k).behind ≤ k }
{
    let slot = slot as usize;
    let end = spans.len().min(slot + 64);
    for k in slot..end {
        let span = spans[k];
        spans[k] = Span {
            behind: span.behind.min((k - slot) as u8),
            ..span
        };
    }
}

/// Has no slot tell of this one.
fn cut_off(spans: &mut Vec<Span>, slot: u32)
    requires slot { slot < length spans.old.items }
    ensures long { length spans.new.items ≡ length spans.old.items }
    ensures narrows { Narrows spans.old.items spans.new.items }
    ensures short { TellGaps spans.old.items → (k : ℕ) → FallsShort spans.new.items k slot }
{
    if spans[slot as usize].cut {
        return;
    }
    cut_ahead(spans, slot);
    cut_behind(spans, slot);
}

/// Puts a place to those of a slot.
fn widen_at(spans: &mut Vec<Span>, slot: u32, place: u32)
    requires place { place < 2 ^ 32 - 1 }
    requires slot { slot < length spans.old.items }
    ensures long { length spans.new.items ≡ length spans.old.items }
    ensures has { covers spans.new.items slot place ≡ true }
    ensures keeps { (k j : ℕ) → covers spans.old.items k j ≡ true → covers spans.new.items k j ≡ true }
    ensures gaps { TellGaps spans.old.items → TellGaps spans.new.items }
{
    cut_off(spans, slot);
    let slot = slot as usize;
    spans[slot] = spans[slot].with(place);
}

/// Puts the place of a breakpoint to those of each slot at which it waits.
pub(crate) fn widen(spans: &mut Vec<Span>, traps: &[Trap], place: u32)
    requires place { place < 2 ^ 32 - 1 }
    requires slots { WaitBelow (length spans.old.items) traps.now }
    ensures long { length spans.new.items ≡ length spans.old.items }
    ensures has { are_covered spans.new.items place traps.now ≡ true }
    ensures keeps { (k j : ℕ) → covers spans.old.items k j ≡ true → covers spans.new.items k j ≡ true }
    ensures gaps { TellGaps spans.old.items → TellGaps spans.new.items }
{
    for trap in traps {
        widen_at(spans, trap.slot, place);
    }
}

/// Takes the places of a slot out.
fn vacate_at(spans: &mut Vec<Span>, slot: u32)
    ensures long { length spans.new.items ≡ length spans.old.items }
    ensures gaps { TellGaps spans.old.items → TellGaps spans.new.items }
{
    let slot = slot as usize;
    if slot < spans.len() {
        let span = spans[slot];
        spans[slot] = Span {
            from: 0,
            to: 0,
            ..span
        };
    }
}

/// Takes the places out of each slot at which a breakpoint waits.
fn vacate_each(spans: &mut Vec<Span>, traps: &[Trap])
    ensures long { length spans.new.items ≡ length spans.old.items }
    ensures gaps { TellGaps spans.old.items → TellGaps spans.new.items }
{
    for trap in traps {
        vacate_at(spans, trap.slot);
    }
}

/// Takes the places out of each slot at which one of these breakpoints waits. Takes no memory.
pub(crate) fn vacate(spans: &mut Vec<Span>, armed: &[Armed])
    ensures long { length spans.new.items ≡ length spans.old.items }
    ensures gaps { TellGaps spans.old.items → TellGaps spans.new.items }
{
    for one in armed {
        vacate_each(spans, &one.traps);
    }
}

/// Puts the place of each breakpoint to those of each slot at which it waits. Takes no memory.
pub(crate) fn refill(spans: &mut Vec<Span>, armed: &[Armed])
    requires few { length armed.now < 2 ^ 32 - 1 }
    requires within { AllWaitBelow (length spans.old.items) armed.now }
    ensures spanned { are_spanned spans.new.items 0 armed.now ≡ true }
    ensures gaps { TellGaps spans.old.items → TellGaps spans.new.items }
{
    let mut place = 0;
    for armed in armed {
        widen(spans, &armed.traps, place);
        place += 1;
    }
}

/// Puts the place of the last breakpoint to those of each slot at which it waits, where those of the ones before it are there.
pub(crate) fn widen_last(spans: &mut Vec<Span>, armed: &[Armed])
    requires few { length armed.now < 2 ^ 32 - 1 }
    requires within { AllWaitBelow (length spans.old.items) armed.now }
    ensures spanned { (front : List Armed) (last : Armed) → armed.now ≡ front ++ last ∷ [] → are_spanned spans.old.items 0 front ≡ true
        → are_spanned spans.new.items 0 armed.now ≡ true }
    ensures gaps { TellGaps spans.old.items → TellGaps spans.new.items }
{
    if let Some(last) = armed.last() {
        widen(spans, &last.traps, armed.len() as u32 - 1);
    }
}
