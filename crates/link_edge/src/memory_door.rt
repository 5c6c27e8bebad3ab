//! A door in memory: it hands out the links that it was given, in order, and behind the last each call fails.
//!
//! It tells all that it means, so that a test can ask what a server did where links run out.

ghost use Rattle.std.specs.Prelude.{◌≡◌, ◌≤◌, [], ◌∷◌, ◌++◌, Some, length, IsTrue, IfOk, OnOk, OnErr, IsErrOf};
ghost use Rattle.std.specs.List.{list_all};
ghost use Rattle.io_edge.specs.Faults.{Rose, one_more};
ghost use Rattle.link_edge.specs.Links.{IsFresh};
ghost use Rattle.link_edge.specs.Doors.{OneLess};
ghost use Rattle.link_edge.specs.MemoryLinks.{meaning_of, is_fresh_link};

use crate::answers::DoorEnd;
use crate::door::Door;
use crate::memory_link::MemLink;
use std::alloc::Global;
use std::collections::VecDeque;
use std::marker::Model;
use text_core::NoMemory;

/// A door in memory, which tells how many links are left. It hands them out in order; behind the last each call fails, and the count
/// of faults rises by one in each of these and in no other call.
#[derive(Drop)]
pub struct MemDoor {
    links: VecDeque<MemLink>,
    faults: u64,
}

impl Model for MemDoor {
    ghost use Rattle.std.specs.Prelude.{IsTrue};
    ghost use Rattle.std.specs.List.{list_all};
    ghost use Rattle.link_edge.specs.MemoryLinks.{DoorInMemory, is_fresh_link};

    ghost Value = { DoorInMemory };

    ghost view = { λ d. record { links = d.links.items; faults = d.faults } };

    ghost invariant = { λ d. IsTrue (list_all is_fresh_link d.links.items) };
}

impl MemDoor {
    /// A door with these links, none of which was used.
    pub fn new(links: Vec<MemLink>) -> Result<MemDoor, NoMemory>
        requires { IsTrue (list_all is_fresh_link links.items) }
        ensures { IfOk result (λ door. door ≡ record { links = links.items; faults = 0 }) }
    {
        Ok(MemDoor {
            links: VecDeque::from(links),
            faults: 0,
        })
    }
}

impl Door for MemDoor {
    type Out = MemLink;

    ghost left = { λ d. Some (length d.links) };

    ghost fault_count = { λ d. d.faults };

    fn faults(&self) -> u64 {
        self.faults
    }

    fn next(&mut self, _alloc: Global) -> Result<MemLink, DoorEnd>
        // The first link that is left, or none: then it fails and counts.
        ensures first { IfOk result (λ link. (self.old.links ≡ link ∷ self.new.links) × (self.new.faults ≡ self.old.faults)) }
        ensures none { OnErr result ((self.old.links ≡ []) × (self.new ≡ record self.old { faults = one_more self.old.faults })) }
        ensures cause { OnErr result (IsErrOf result DoorEnd.Failed) }

        // What holds of all doors.
        ensures fresh { IfOk result (λ link. IsFresh (meaning_of link)) }
        ensures ok { OnOk result (OneLess (Some (length self.old.links)) (Some (length self.new.links))) }
        ensures err { OnErr result (Some (length self.new.links) ≡ Some (length self.old.links)) }
        ensures later { self.old.faults ≤ self.new.faults }
        ensures failed { IsErrOf result DoorEnd.Failed → Rose self.old.faults self.new.faults }
    {
        match self.links.pop_front() {
            Some(link) => Ok(link),
            None => {
                self.faults = self.faults.saturating_add(1);
                Err(DoorEnd::Failed)
            }
        }
    }
}
