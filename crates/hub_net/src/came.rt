//! The links that a door hands out.

ghost use Rattle.std.specs.Prelude.{◌≡◌, ◌≤◌, [], All, IfOk, OnErr, length, map, vec_capacity};
ghost use Rattle.link_edge.specs.Links.{IsFresh};
ghost use Rattle.hub_net.specs.Came.{AsksSome, Gathers, comings};

use link_edge::{Door, DoorEnd};
use std::alloc::Global;
use text_core::NoMemory;

/// The links that came, and of each time that the door was asked whether one came.
#[derive(Drop)]
pub(crate) struct Came<L> {
    pub(crate) links: Vec<L>,
    pub(crate) came: Vec<bool>,
}

/// Room for what so many times may bring.
fn came_for<L: Drop>(alloc: Global, count: usize) -> Result<Came<L>, NoMemory>
    ensures empty { IfOk result (λ crowd. (crowd.links.items ≡ []) × (crowd.came.items ≡ [])) }
    ensures room { IfOk result (λ crowd. (count ≤ vec_capacity crowd.links) × (count ≤ vec_capacity crowd.came)) }
{
    let mut links = Vec::new(alloc);
    links.try_reserve(count)?;
    let mut came = Vec::new(alloc);
    came.try_reserve(count)?;
    Ok(Came { links, came })
}

/// Asks the door so often. Fails for want of memory.
///
/// Where the door waits for a client, it waits, and may never return.
pub(crate) fn gather<D: Door>(
    alloc: Global,
    count: u16,
    door: &mut D,
) -> Result<Came<D::Out>, NoMemory>
    ensures ok { IfOk result (λ crowd. Gathers count (map (λ l. D.Out.meaning l) crowd.links.items) crowd.came.items
        (D.left door.old) (D.left door.new) (D.fault_count door.old) (D.fault_count door.new)) }
    ensures err { OnErr result (AsksSome count (D.left door.old) (D.left door.new) (D.fault_count door.old) (D.fault_count door.new)) }
{
    let Came {
        mut links,
        mut came,
    } = came_for(alloc, usize::from(count))?;
    for _ in 0..count {
        match door.next(alloc) {
            Ok(link) => {
                let _ = links.push(link);
                let _ = came.push(true);
            }
            Err(DoorEnd::Failed) => {
                let _ = came.push(false);
            }
            Err(DoorEnd::NoMemory) => return Err(NoMemory),
        }
    }
    Ok(Came { links, came })
}
