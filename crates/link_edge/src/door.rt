//! A door: it hands out the links of clients, one after another, or says that none came.
//!
//! It is a trait of its own, so that whoever serves connections knows nothing of where they come from.

ghost use Rattle.std.specs.Prelude.{◌≡◌, ◌≤◌, ◌-◌, ℕ, Option, IfOk, OnErr, OnOk, IsErrOf};
ghost use Rattle.io_edge.specs.Faults.{Rose};

use crate::answers::DoorEnd;
use crate::link::Link;
use std::alloc::Global;

/// What hands out links, one after the other.
pub trait Door {
    ghost use Rattle.link_edge.specs.Links.{IsFresh};
    ghost use Rattle.link_edge.specs.Doors.{OneLess};

    type Out: Link;

    /// How many links are left, where the door tells it.
    ghost left: { Self → Option ℕ };

    /// How many calls have failed, from 0 to 2^64 - 1.
    ghost fault_count: { Self → ℕ };

    /// The count of faults. It never falls, and stays at 2^64 - 1.
    fn faults(&self) -> u64
        ensures { result ≡ fault_count self.now };

    /// The next link. It is not shut, its counts are 0, and its lists are empty, where it tells them.
    fn next(&mut self, alloc: Global) -> Result<Self::Out, DoorEnd>
        ensures fresh { IfOk result (λ link. IsFresh (Self.Out.meaning link)) }
        ensures ok { OnOk result (OneLess (left self.old) (left self.new)) }
        ensures err { OnErr result (left self.new ≡ left self.old) }
        ensures later { fault_count self.old ≤ fault_count self.new }
        ensures failed { IsErrOf result DoorEnd.Failed → Rose (fault_count self.old) (fault_count self.new) };
}
