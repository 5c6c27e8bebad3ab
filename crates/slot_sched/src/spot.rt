//! A position with its cycle and its slot, which are counted along with it: a search that passes a position divides nothing.

ghost use Rattle.std.specs.Prelude.{◌≡◌, ◌<◌, ◌≤◌, ◌+◌, ◌^◌};
ghost use Rattle.slot_sched.specs.Spots.{IsSpot};

/// A position, the cycle that it is in, and its slot.
#[derive(Clone, Copy)]
pub(crate) struct Spot {
    pub(crate) position: u64,
    pub(crate) cycle: u64,
    pub(crate) slot: u32,
}

impl Spot {
    /// The spot of a position, where a cycle has so many slots.
    pub(crate) fn of(position: u64, slots: u32) -> Spot
        requires { 0 < slots }
        ensures spot { IsSpot slots result }
        ensures position { result.position ≡ position }
    {
        let slots = u64::from(slots);
        Spot {
            position,
            cycle: position / slots,
            slot: (position % slots) as u32,
        }
    }

    /// The spot of the next position.
    #[tactic(auto, using(crate::proofs::Spots::next_within, crate::proofs::Spots::next_beyond, crate::proofs::Spots::cycle_below, crate::proofs::Spots::slot_below))]
    pub(crate) fn next(self, slots: u32) -> Spot
        requires some { 0 < slots }
        requires spot { IsSpot slots self }
        requires few { self.position < 2 ^ 63 }
        ensures spot { IsSpot slots result }
        ensures position { result.position ≡ self.position + 1 }
    {
        let position = self.position + 1;
        let slot = self.slot + 1;
        if slot < slots {
            return Spot {
                position,
                cycle: self.cycle,
                slot,
            };
        }
        Spot {
            position,
            cycle: self.cycle + 1,
            slot: 0,
        }
    }

    /// The spot of the position before.
    #[tactic(auto, using(crate::proofs::Spots::before_within, crate::proofs::Spots::before_beyond, crate::proofs::Spots::cycle_above))]
    pub(crate) fn previous(self, slots: u32) -> Spot
        requires some { 0 < slots }
        requires spot { IsSpot slots self }
        requires later { 0 < self.position }
        ensures spot { IsSpot slots result }
        ensures position { result.position + 1 ≡ self.position }
    {
        let position = self.position - 1;
        if 0 < self.slot {
            return Spot {
                position,
                cycle: self.cycle,
                slot: self.slot - 1,
            };
        }
        Spot {
            position,
            cycle: self.cycle - 1,
            slot: slots - 1,
        }
    }

    /// The spot so many slots on in the same cycle.
    pub(crate) fn up(self, by: u32, slots: u32) -> Spot
        requires within { self.slot + by < slots }
        requires spot { IsSpot slots self }
        requires few { self.position < 2 ^ 62 }
        ensures spot { IsSpot slots result }
        ensures position { result.position ≡ self.position + by }
    {
        Spot {
            position: self.position + u64::from(by),
            cycle: self.cycle,
            slot: self.slot + by,
        }
    }

    /// The spot so many slots back in the same cycle.
    pub(crate) fn down(self, by: u32, slots: u32) -> Spot
        requires some { 0 < slots }
        requires within { by ≤ self.slot }
        requires spot { IsSpot slots self }
        ensures spot { IsSpot slots result }
        ensures position { result.position + by ≡ self.position }
    {
        Spot {
            position: self.position - u64::from(by),
            cycle: self.cycle,
            slot: self.slot - by,
        }
    }
}
