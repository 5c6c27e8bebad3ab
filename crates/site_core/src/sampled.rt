//! What a trace shows in the cycle at which it stands; a session asks for it too.

ghost use Rattle.std.specs.Prelude.{◌≡◌, ◌<◌, Contains};
ghost use Rattle.symtab.specs.Lookups.{instances_of};
ghost use Rattle.cond_lang.specs.Bound as bound;
ghost use Rattle.cond_lang.specs.Bound.{EachNode, bound_value};
ghost use Rattle.cond_lang.specs.Shown.{cond_tree};
ghost use Rattle.trace_core.specs.Known.{known, is_one};
ghost use Rattle.trace_world.specs.Fitting.{FitsTable};
ghost use Rattle.machine_core.specs.Matching.{is_wanted};
ghost use Rattle.site_core.specs.Sampled.{cycle_samples, IsSet, IsValue, IsNodeOf, is_thread};

use bv_core::{NodeId, Ref, Sample};
use cond_lang::{Cond, value_of};
use symtab::Table;
use trace_core::Trace;

/// The sample of a node. Takes no memory.
pub fn sample_at<T: Trace>(trace: &T, node: NodeId) -> Sample
    requires set { IsSet (T.samples trace.now) (T.cursor trace.now) }
    requires node { node.0 < (T.samples trace.now).nodes }
    ensures sample { result ≡ cycle_samples (T.samples trace.now) (T.cursor trace.now) node.0 }
    ensures value { IsValue result }
{
    let sample = trace.value(node);
    if let Sample::Known(value) = sample {
        let _width = value.width();
    }
    sample
}

/// Whether a sample is known and is 1.
fn is_one(sample: Sample) -> bool
    ensures { result ≡ is_one (known sample) }
{
    match sample {
        Sample::Known(value) => value.value() == 1,
        Sample::Unknown => false,
    }
}

/// Whether no instance was named, or this one was. Takes no memory.
pub fn is_wanted(named: Option<u32>, instance: u32) -> bool
    ensures { result ≡ is_wanted named instance }
{
    match named {
        Some(one) => instance == one,
        None => true,
    }
}

/// Whether an instance has a slot as a thread. Takes no memory.
pub fn is_thread<T: Trace>(table: &Table, trace: &T, slot: u32, instance: u32) -> bool
    requires fits { FitsTable table.now (T.samples trace.now) }
    requires set { IsSet (T.samples trace.now) (T.cursor trace.now) }
    requires instance { Contains (instances_of table.now slot) instance }
    ensures { result ≡ is_thread table.now (cycle_samples (T.samples trace.now) (T.cursor trace.now)) slot instance }
{
    match table.enable(slot, instance) {
        Ref::Node(node, _) => is_one(sample_at(trace, node)),
        Ref::Const(value) => value.value() == 1,
    }
}

/// What an expression comes to. Takes no memory.
pub fn come_to<T: Trace>(trace: &T, cond: &Cond) -> Sample
    requires set { IsSet (T.samples trace.now) (T.cursor trace.now) }
    requires nodes { EachNode (IsNodeOf (T.samples trace.now)) (cond_tree cond.now) }
    ensures { bound.known result ≡ bound_value (λ node. cycle_samples (T.samples trace.now) (T.cursor trace.now) node.0) (cond_tree cond.now) }
{
    let value = |node: NodeId| -> Sample
        requires set { IsSet (T.samples trace.now) (T.cursor trace.now) }
        requires node { node.0 < (T.samples trace.now).nodes }
        ensures sample { result ≡ cycle_samples (T.samples trace.entry.now) (T.cursor trace.entry.now) node.0 }
        ensures value { IsValue result }
    { sample_at(trace, node) };
    value_of(cond, &value)
}
