//! Whether the condition of a breakpoint holds in the cycle at which a trace stands.

ghost use Rattle.std.specs.Prelude.{◌≡◌, ◌<◌};
ghost use Rattle.site_core.specs.Sampled.{cycle_samples, IsSet, IsValue};
ghost use Rattle.slot_sched.specs.Waiting.{IsTest, is_true, test_holds};

use bv_core::{NodeId, Sample, Truth};
use cond_lang::{Cond, truth};
use site_core::sample_at;
use trace_core::Trace;

/// Whether a condition is true.
fn is_true(truth: Truth) -> bool
    ensures { result ≡ is_true truth }
{
    match truth {
        Truth::True => true,
        Truth::False | Truth::Unknown => false,
    }
}

/// Whether there is no condition, or it is known and true.
pub(crate) fn test_holds<T: Trace>(trace: &T, cond: &Option<Cond>) -> bool
    requires set { IsSet (T.samples trace.now) (T.cursor trace.now) }
    requires test { IsTest (T.samples trace.now) cond.now }
    ensures { result ≡ test_holds (cycle_samples (T.samples trace.now) (T.cursor trace.now)) cond.now }
{
    let Some(cond) = cond else {
        return true;
    };
    let value = |node: NodeId| -> Sample
        requires set { IsSet (T.samples trace.now) (T.cursor trace.now) }
        requires node { node.0 < (T.samples trace.now).nodes }
        ensures sample { result ≡ cycle_samples (T.samples trace.entry.now) (T.cursor trace.entry.now) node.0 }
        ensures value { IsValue result }
    { sample_at(trace, node) };
    is_true(truth(cond, &value))
}
