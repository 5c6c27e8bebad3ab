//! One time that the door is asked: the link that comes is served.

ghost use Rattle.std.specs.Prelude.{◌≡◌, ◌≤◌, All, IfOk, IfErr, OnOk, OnErr, IsErrOf, length, map, reverse};
ghost use Rattle.io_edge.specs.Faults.{Rose};
ghost use Rattle.show_net.specs.Over.{Over, Shows};
ghost use Rattle.serve_net.specs.Attending.{Attends, Breaks, Keeps, Visited, Halted};

use crate::connect::{connect, request_count};
use crate::hall::Hall;
use crate::visit::{Visit, write_visit};
use duo_run::Served;
use io_edge::{Sink, SinkEnd};
use link_edge::{Door, DoorEnd, End};
use show_net::Service;
use std::alloc::Global;
use std::sync::Wait;
use std::thread::Threads;
use text_core::NoMemory;

impl<L: Drop> Hall<L> {
    /// Keeps what a connection left, and says what came of it. Fails where the connection ended for want of memory, or there is no room
    /// for what it left.
    pub(crate) fn keep(&mut self, served: Served<L>) -> Result<Visit, NoMemory>
        ensures sets { self.new.sets ≡ self.old.sets }
        ensures kept { Keeps self.old.served.items self.new.served.items served result }
    {
        let end = served.end;
        let requests = request_count(&served.journal);
        if self.served.push(served).is_err() {
            return Err(NoMemory);
        }
        match end {
            End::NoMemory => Err(NoMemory),
            End::Bye | End::Closed | End::Failed => Ok(Visit::Linked(end, requests)),
        }
    }
}

/// Asks the door for a link, and serves it with the last set of listeners. Fails for want of memory.
///
/// Where the door waits for a client, or the link is silent, it waits, and may never return.
fn attend<R: Threads + Wait + Sync, D: Door>(
    rt: &R,
    alloc: Global,
    service: &Service,
    door: &mut D,
    hall: &mut Hall<D::Out>,
) -> Result<Visit, NoMemory>
    requires shows { (over : Over) × Shows service.now over }
    requires few { All (λ s. length s.items ≤ 65536) hall.old.sets.items }
    ensures few { All (λ s. length s.items ≤ 65536) hall.new.sets.items }
    ensures ok { IfOk result (λ visit. (over : Over) → Shows service.now over
        → Attends (λ l. D.Out.meaning l) over (reverse (map (λ s. map (λ b. heard b) s.items) hall.old.sets.items))
        (reverse (map (λ s. map (λ b. heard b) s.items) hall.new.sets.items))
        hall.old.served.items hall.new.served.items (D.left door.old) (D.left door.new) (D.fault_count door.old) (D.fault_count door.new) visit) }
    ensures err { OnErr result ((over : Over) → Shows service.now over
        → Breaks (λ l. D.Out.meaning l) over (reverse (map (λ s. map (λ b. heard b) s.items) hall.old.sets.items))
        hall.old.served.items hall.new.served.items (D.left door.old) (D.left door.new) (D.fault_count door.old) (D.fault_count door.new)) }
{
    let link = match door.next(alloc) {
        Ok(link) => link,
        Err(DoorEnd::Failed) => return Ok(Visit::NoLink),
        Err(DoorEnd::NoMemory) => return Err(NoMemory),
    };
    let listeners = hall.next_set(alloc);
    match connect(rt, alloc, service, link, listeners) {
        Ok(served) => hall.keep(served),
        Err(NoMemory) => Err(NoMemory),
    }
}

/// Asks the door for a link, serves it, and writes the line of what came of it, which has this number.
///
/// Where the door waits for a client, or the link is silent, it waits, and may never return.
pub(crate) fn visit<R: Threads + Wait + Sync, D: Door, S: Sink>(
    rt: &R,
    alloc: Global,
    service: &Service,
    number: u64,
    door: &mut D,
    hall: &mut Hall<D::Out>,
    out: &mut S,
) -> Result<(), SinkEnd>
    requires shows { (over : Over) × Shows service.now over }
    requires few { All (λ s. length s.items ≤ 65536) hall.old.sets.items }
    ensures few { All (λ s. length s.items ≤ 65536) hall.new.sets.items }
    ensures ok { OnOk result ((over : Over) → Shows service.now over
        → Visited (λ l. D.Out.meaning l) over (reverse (map (λ s. map (λ b. heard b) s.items) hall.old.sets.items))
        (reverse (map (λ s. map (λ b. heard b) s.items) hall.new.sets.items))
        hall.old.served.items hall.new.served.items (D.left door.old) (D.left door.new) (D.fault_count door.old) (D.fault_count door.new) number
        (S.taken out.old) (S.taken out.new)) }
    ensures err { IfErr result (λ end. (over : Over) → Shows service.now over
        → Halted (λ l. D.Out.meaning l) over (reverse (map (λ s. map (λ b. heard b) s.items) hall.old.sets.items))
        hall.old.served.items hall.new.served.items (D.left door.old) (D.left door.new) (D.fault_count door.old) (D.fault_count door.new) number
        (S.taken out.old) (S.taken out.new) end) }
    ensures failed { IsErrOf result SinkEnd.Failed → Rose (S.fault_count out.old) (S.fault_count out.new) }
    ensures later { S.fault_count out.old ≤ S.fault_count out.new }
{
    match attend(rt, alloc, service, door, hall) {
        Ok(visit) => write_visit(alloc, b"connection ", number, visit, out),
        Err(NoMemory) => Err(SinkEnd::NoMemory),
    }
}
