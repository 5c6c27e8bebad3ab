//! What an expression comes to in a thread.

ghost use Rattle.std.specs.Prelude.{◌≡◌, ℕ, Contains, IfOk, Result};
ghost use Rattle.symtab.specs.Lookups.{instances_of};
ghost use Rattle.trace_world.specs.Fitting.{FitsTable};
ghost use Rattle.cond_lang.specs.Faults.{Refuses};
ghost use Rattle.cond_lang.specs.Judged.{Refusal, judged};
ghost use Rattle.machine_core.specs.Reading.{Reader, IsReader};
ghost use Rattle.site_core.specs.Sampled.{cycle_samples, IsSet};
ghost use Rattle.dbg_core.specs.Eval.{text_body, table_body, is_refused_so, is_unread_so};

use cond_lang::{BindEnd, CondFault, CondText, bind, read_cond};
use machine_core::Body;
use site_core::come_to;
use std::alloc::Global;
use symtab::Table;
use text_core::NoMemory;
use trace_core::Trace;

/// Why an expression has no value at a slot, by the end of its binding there.
fn refusal(end: BindEnd, slot: u32) -> Result<Body, NoMemory>
    ensures { (judged : Result ℕ Refusal) → Refuses end judged → IfOk result (is_refused_so slot judged) }
{
    match end {
        BindEnd::Unknown { name } => Ok(Body::BadCondName { name }),
        BindEnd::Removed { name } => Ok(Body::CondRemoved { name, slot }),
        BindEnd::Unset { name } => Ok(Body::CondUnset { name, slot }),
        BindEnd::Width { offset } => Ok(Body::BadCondAt { offset }),
        BindEnd::NoMemory => Err(NoMemory),
    }
}

/// Why a text is no expression.
fn unread(fault: CondFault) -> Result<Body, NoMemory>
    ensures { IfOk result (is_unread_so fault) }
{
    match fault {
        CondFault::At { offset } => Ok(Body::BadCondAt { offset }),
        CondFault::NoMemory => Err(NoMemory),
    }
}

/// What an expression that was read comes to at a slot of an instance.
fn bound<T: Trace>(
    alloc: Global,
    table: &Table,
    trace: &T,
    slot: u32,
    instance: u32,
    text: &CondText,
) -> Result<Body, NoMemory>
    requires fits { FitsTable table.now (T.samples trace.now) }
    requires set { IsSet (T.samples trace.now) (T.cursor trace.now) }
    requires there { Contains (instances_of table.now slot) instance }
    ensures { IfOk result (λ body. body ≡ text_body table.now (cycle_samples (T.samples trace.now) (T.cursor trace.now)) slot instance text.now) }
{
    let _parts = table.parts();
    match bind(
        alloc,
        text,
        &|name: &str| table.binding(slot, instance, name),
    ) {
        Ok(cond) => Ok(Body::Eval {
            value: come_to(trace, &cond),
        }),
        Err(end) => refusal(end, slot),
    }
}

/// What a text comes to as an expression at a slot of an instance, in the cycle at which the trace stands.
pub(crate) fn eval_in<T: Trace>(
    alloc: Global,
    table: &Table,
    trace: &T,
    slot: u32,
    instance: u32,
    text: &str,
) -> Result<Body, NoMemory>
    requires fits { FitsTable table.now (T.samples trace.now) }
    requires set { IsSet (T.samples trace.now) (T.cursor trace.now) }
    requires there { Contains (instances_of table.now slot) instance }
    ensures { (read : Reader) → IsReader read → IfOk result (λ body. body
        ≡ table_body table.now (cycle_samples (T.samples trace.now) (T.cursor trace.now)) slot instance (read text.now)) }
{
    match read_cond(alloc, text.as_bytes()) {
        Ok(text) => bound(alloc, table, trace, slot, instance, &text),
        Err(fault) => unread(fault),
    }
}
