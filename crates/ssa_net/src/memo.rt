//! Which terms of a block have a node already, at the start: none.

ghost use Rattle.std.specs.Prelude.{◌≡◌, IfOk};
ghost use Rattle.ssa_core.specs.Processes.{lists_of};
ghost use Rattle.ssa_nodes.specs.Parts.{HasParts, IsProcess, blocks_in};
ghost use Rattle.ssa_net.specs.Blank.{AreBlank, IsBlank};

use bv_core::NodeId;
use ssa_core::ProcessKey;
use ssa_nodes::{Parts, block_of, no_nodes};
use std::alloc::Global;
use text_core::NoMemory;

/// No nodes for the terms of the block of a process.
fn no_memo(
    alloc: Global,
    parts: &Parts<'_>,
    key: ProcessKey,
) -> Result<Vec<Option<NodeId>>, NoMemory>
    requires parts { HasParts parts.now }
    requires process { IsProcess parts.now key }
    ensures { IfOk result (λ memo. IsBlank (blocks_in parts.now) key memo.items) }
{
    let block = block_of(parts, key);
    let memo = no_nodes(alloc, block.terms().len())?;
    Ok(memo)
}

/// The same for each process.
pub(crate) fn no_memos(
    alloc: Global,
    parts: &Parts<'_>,
) -> Result<Vec<Vec<Option<NodeId>>>, NoMemory>
    requires { HasParts parts.now }
    ensures { IfOk result (λ memos. AreBlank (blocks_in parts.now) parts.now.keys.items (lists_of memos.items)) }
{
    let mut memos = Vec::new(alloc);
    for key in &parts.keys {
        memos.push(no_memo(alloc, parts, *key)?)?;
    }
    Ok(memos)
}
