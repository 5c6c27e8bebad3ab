//! The next values of a net by the numbers of their registers' nodes, for those who go through the nodes in order.

ghost use Rattle.std.specs.Prelude.{◌≡◌, IfOk, length};
ghost use Rattle.net_core.specs.Nets.{IsNet, StandBeside};

use crate::Net;
use std::alloc::{AllocError, Global};

/// For each node that is a register's, the number of the node of its next value, and 0 for the others.
pub fn nexts_by_number(alloc: Global, net: &Net) -> Result<Vec<u64>, AllocError>
    ensures nexts { IfOk result (λ found. StandBeside (length net.now.nodes) net.now.nexts found.items) }
    ensures net { IsNet net.now }
{
    let mut found = vec![in alloc; 0; net.count() as usize]?;
    let nexts = net.nexts();
    for place in (0..nexts.len()).rev() {
        let (register, next) = nexts[place];
        found[register.0 as usize] = next.0;
    }
    Ok(found)
}
