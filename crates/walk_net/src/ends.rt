//! The outputs and next values of a net over the ids of its copy. What was not kept has no id and goes.

ghost use Rattle.std.specs.Prelude.{◌≡◌, ◌++◌, IfOk, OnOk};
ghost use Rattle.net_core.specs.Nets.{outputs_of as net_outputs, nexts_of as net_nexts};
ghost use Rattle.walk_net.specs.Renaming.{id_at};
ghost use Rattle.walk_net.specs.Walked.{kept_output, kept_outputs, kept_next, kept_nexts};

use bv_core::NodeId;
use net_core::Net;
use std::alloc::Global;
use text_core::{NoMemory, Text};

/// The id that a node got, if it did.
fn id_of(ids: &[Option<NodeId>], id: NodeId) -> Option<NodeId>
    ensures { result ≡ id_at ids.now id.0 }
{
    *ids.get(id.0 as usize)?
}

/// Puts an output last whose node was kept.
fn push_output(
    alloc: Global,
    outputs: &mut Vec<(Text, NodeId)>,
    name: &[u8],
    id: Option<NodeId>,
) -> Result<(), NoMemory>
    ensures { OnOk result (net_outputs outputs.new.items ≡ net_outputs outputs.old.items ++ kept_output name.now id) }
{
    if let Some(id) = id {
        outputs.push((Text::new(alloc, name)?, id))?;
    }
    Ok(())
}

/// The outputs of a net, over the ids that their nodes got.
pub(crate) fn outputs_of(
    alloc: Global,
    net: &Net,
    ids: &[Option<NodeId>],
) -> Result<Vec<(Text, NodeId)>, NoMemory>
    ensures { IfOk result (λ outputs. net_outputs outputs.items ≡ kept_outputs ids.now net.now.outputs) }
{
    let mut outputs = Vec::new(alloc);
    for (name, id) in net.outputs() {
        push_output(alloc, &mut outputs, name.bytes(), id_of(ids, *id))?;
    }
    Ok(outputs)
}

/// Puts a register's next value last, if both were kept.
fn push_next(
    nexts: &mut Vec<(NodeId, NodeId)>,
    register: Option<NodeId>,
    next: Option<NodeId>,
) -> Result<(), NoMemory>
    ensures { OnOk result (net_nexts nexts.new.items ≡ net_nexts nexts.old.items ++ kept_next register next) }
{
    if let Some(register) = register {
        if let Some(next) = next {
            nexts.push((register, next))?;
        }
    }
    Ok(())
}

/// The next values of the registers of a net that were kept, over the ids that their nodes got.
pub(crate) fn nexts_of(
    alloc: Global,
    net: &Net,
    ids: &[Option<NodeId>],
) -> Result<Vec<(NodeId, NodeId)>, NoMemory>
    ensures { IfOk result (λ nexts. net_nexts nexts.items ≡ kept_nexts ids.now net.now.nexts) }
{
    let mut nexts = Vec::new(alloc);
    for (register, next) in net.nexts() {
        push_next(&mut nexts, id_of(ids, *register), id_of(ids, *next))?;
    }
    Ok(nexts)
}
