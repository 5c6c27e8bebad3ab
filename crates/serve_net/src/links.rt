//! A service: the door is asked so often, and each link that comes is served.

ghost use Rattle.std.specs.Prelude.{◌≡◌, ◌≤◌, ◌<◌, All, IsTrue, length, map, reverse};
ghost use Rattle.io_edge.specs.Faults.{Rose};
ghost use Rattle.show_net.specs.Over.{Over, Shows};
ghost use Rattle.serve_net.specs.Service.{ServesAll, ServesSome, end_status, is_end_status};

use crate::attend::visit;
use crate::hall::Hall;
use duo_run::Served;
use io_edge::{Sink, SinkEnd};
use link_edge::Door;
use listen::Listener;
use run_status::Ending;
use show_net::Service;
use std::alloc::Global;
use std::sync::Wait;
use std::thread::Threads;

/// What a service to one client after the other leaves: its status, which is 0 where all was served and told, 8 where the output failed, and 9
/// where memory ran out; and what each connection left, in order.
#[derive(Drop)]
pub struct InTurn<L> {
    pub status: u8,
    pub served: Vec<Served<L>>,
}

/// The status for a line that was not written.
fn status_of(end: SinkEnd) -> u8
    ensures { result ≡ end_status end }
{
    match end {
        SinkEnd::Failed => Ending::NotTaken.status(),
        SinkEnd::NoMemory => Ending::OutOfMemory.status(),
    }
}

/// Asks the door so often, and serves each link that comes with a session of its own and with the last set of listeners that is left, or
/// none, and then closes it. Each set has at most 65,536 listeners. Of each time it writes a line: `connection I end E requests R`, where I
/// counts from 0, E is `bye`, `closed` or `failed`, and R is how many requests were applied; or `connection I door failed`. It ends early
/// where the output fails, and where memory runs out.
///
/// Where the door waits for a client, or a link is silent, it waits, and may never return.
pub fn serve_links<R: Threads + Wait + Sync, D: Door, S: Sink>(
    rt: &R,
    alloc: Global,
    service: &Service,
    count: u16,
    door: &mut D,
    out: &mut S,
    sets: Vec<Vec<Box<dyn Listener>>>,
) -> InTurn<D::Out>
    requires shows { (over : Over) × Shows service.now over }
    requires few { All (λ s. length s.items ≤ 65536) sets.items }
    ensures statuses { IsTrue (is_end_status result.status) }
    ensures all { result.status ≡ 0 → (over : Over) → Shows service.now over
        → ServesAll (λ l. D.Out.meaning l) over (reverse (map (λ s. map (λ b. heard b) s.items) sets.items)) count
        (D.left door.old) (D.left door.new) (D.fault_count door.old) (D.fault_count door.new) result.served.items (S.taken out.old) (S.taken out.new) }
    ensures some { 7 < result.status → (over : Over) → Shows service.now over
        → ServesSome (λ l. D.Out.meaning l) over (reverse (map (λ s. map (λ b. heard b) s.items) sets.items)) count
        (D.left door.old) (D.left door.new) (D.fault_count door.old) (D.fault_count door.new) result.served.items (S.taken out.old)
        (S.taken out.new) result.status }
    ensures write { result.status ≡ 8 → Rose (S.fault_count out.old) (S.fault_count out.new) }
    ensures later { S.fault_count out.old ≤ S.fault_count out.new }
{
    let mut hall = Hall {
        sets,
        served: Vec::new(alloc),
    };
    if hall.served.try_reserve(usize::from(count)).is_err() {
        return InTurn {
            status: Ending::OutOfMemory.status(),
            served: hall.served,
        };
    }
    for number in 0..u64::from(count) {
        match visit(rt, alloc, service, number, door, &mut hall, out) {
            Ok(()) => {}
            Err(end) => {
                return InTurn {
                    status: status_of(end),
                    served: hall.served,
                };
            }
        }
    }
    InTurn {
        status: Ending::Written.status(),
        served: hall.served,
    }
}
