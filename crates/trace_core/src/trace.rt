//! What a debugger may ask of a trace: samples by cycle, under a cursor that goes both ways. The simulator's trace and that of a dump file are the same
//! to all that is above.

ghost use Rattle.std.specs.Prelude.{◌≡◌, ◌<◌, ◌≤◌, ℕ, Option, Some, IsSome, IfSome};
ghost use Rattle.trace_core.specs.Samples.{Samples};

use crate::Seek;
use bv_core::{NodeId, Sample};

/// A table of samples, and a cursor at one of its cycles. No call changes the samples or takes memory.
pub trait Trace {
    /// The samples.
    ghost samples: { Self → Samples };

    /// The cycle at which the cursor stands, once a seek has answered `At`.
    ghost cursor: { Self → Option ℕ };

    /// How many cycles there are.
    fn cycles(&self) -> u64
        ensures { result ≡ (samples self.now).cycles };

    /// How many nodes there are.
    fn nodes(&self) -> u64
        ensures { result ≡ (samples self.now).nodes };

    /// Moves the cursor to a cycle, counted from 0, where there is one.
    fn seek(&mut self, t: u64) -> Seek
        ensures kept { samples self.new ≡ samples self.old }
        ensures within { t < (samples self.old).cycles → (result ≡ Seek.At) × (cursor self.new ≡ Some t) }
        ensures beyond { (samples self.old).cycles ≤ t → (result ≡ Seek.OutOfRange) × (cursor self.new ≡ cursor self.old) };

    /// The sample of a node in the cycle at which the cursor stands.
    fn value(&self, n: NodeId) -> Sample
        requires placed { IsSome (cursor self.now) }
        requires node { n.0 < (samples self.now).nodes }
        ensures { IfSome (cursor self.now) (λ t. result ≡ (samples self.now).sample t n.0) };
}
