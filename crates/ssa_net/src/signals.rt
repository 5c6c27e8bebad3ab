//! The nodes of all signals: those that are given first, then the driven ones along the order.

ghost use Rattle.std.specs.Prelude.{◌≡◌, [], length, IfOk, OnOk};
ghost use Rattle.design_exec.specs.Processes.{processes_of};
ghost use Rattle.net_core.specs.Builder.{AreShared};
ghost use Rattle.ssa_core.specs.Processes.{lists_of};
ghost use Rattle.ssa_nodes.specs.State.{AllOverGivens};
ghost use Rattle.ssa_nodes.specs.Parts.{HasParts, HasSignals, HasState, design_in};
ghost use Rattle.ssa_nodes.specs.Driving.{AllHave, GivenHave};

use crate::memo::no_memos;
use bv_core::NodeId;
use net_core::NetBuilder;
use ssa_nodes::{Parts, no_nodes, place_givens, resolve_all};
use std::alloc::Global;
use text_core::NoMemory;

/// The nodes of the inputs of the top and of all registers, in a builder that has none.
fn given_nodes(
    alloc: Global,
    parts: &Parts<'_>,
    builder: &mut NetBuilder,
) -> Result<Vec<Option<NodeId>>, NoMemory>
    requires parts { HasParts parts.now }
    requires empty { builder.old ≡ [] }
    requires shared { AreShared builder.old }
    ensures long { IfOk result (λ nodes. length nodes.items ≡ parts.now.count) }
    ensures given { IfOk result (λ nodes. GivenHave parts.now nodes.items) }
    ensures signals { IfOk result (λ nodes. HasSignals parts.now builder.new nodes.items) }
    ensures over { OnOk result (AllOverGivens (processes_of (design_in parts.now)) builder.new) }
{
    let mut nodes = no_nodes(alloc, parts.count)?;
    place_givens(alloc, parts, builder, &mut nodes)?;
    Ok(nodes)
}

/// The nodes of all signals, and those of terms of the blocks of processes so far, in a builder that has none.
pub(crate) fn signal_nodes(
    alloc: Global,
    parts: &Parts<'_>,
    builder: &mut NetBuilder,
) -> Result<(Vec<Option<NodeId>>, Vec<Vec<Option<NodeId>>>), NoMemory>
    requires parts { HasParts parts.now }
    requires empty { builder.old ≡ [] }
    requires shared { AreShared builder.old }
    ensures all { IfOk result (λ found. AllHave parts.now found.0.items) }
    ensures state { IfOk result (λ found. HasState parts.now builder.new found.0.items (lists_of found.1.items)) }
{
    let mut nodes = given_nodes(alloc, parts, builder)?;
    let mut memos = no_memos(alloc, parts)?;
    resolve_all(alloc, parts, builder, &mut nodes, &mut memos)?;
    Ok((nodes, memos))
}
