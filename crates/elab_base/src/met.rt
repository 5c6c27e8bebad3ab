//! What a walk has counted so far, against the limits of elaboration. A count that passes its limit is not taken, so that no count ever wraps.

ghost use Rattle.std.specs.Prelude.{◌≡◌, ◌<◌, ◌^◌, OnOk, OnErr};
ghost use Rattle.elab_core.specs.Results.{Judged};
ghost use Rattle.elab_core.specs.Walk.{judge, counts, none_seen};
ghost use Rattle.elab_base.specs.Met.{met_of, entered, CountsOne, CountsUp};

use elab_core::{Count, ElabFault};

/// How many of each were met so far.
#[derive(Clone, Copy, PartialEq, Eq)]
pub struct Met {
    pub instances: u32,
    pub turns: u32,
    pub statements: u32,
    pub signals: u32,
    pub parts: u32,
}

impl Met {
    /// Nothing was met yet.
    pub fn new() -> Met
        ensures { met_of result ≡ none_seen }
    {
        Met {
            instances: 0,
            turns: 0,
            statements: 0,
            signals: 0,
            parts: 0,
        }
    }

    /// Counts one more, at this line; it is a fault where that passes the limit, and then nothing is counted. Cells are counted
    /// elsewhere: of them nothing is kept. No count ever falls, or goes past its limit.
    #[tactic(auto, unfolding(elab_core::specs::Walk::judge, crate::specs::Met::CountsUp))]
    pub fn take(&mut self, what: Count, line: u32) -> Result<(), ElabFault>
        ensures judged { Judged (λ _. tt) result (met_of self.new) (judge (met_of self.old) (counts what line)) }
        ensures entered { OnOk result (self.new.instances ≡ entered what self.old.instances) }
        ensures counts { CountsUp self.old self.new }
        ensures same { OnErr result (self.new ≡ self.old) }
    {
        match what {
            Count::Instances => self.instances = one_more(self.instances, what, 4_096, line)?,
            Count::Turns => self.turns = one_more(self.turns, what, 1_000_000, line)?,
            Count::Statements => self.statements = one_more(self.statements, what, 200_000, line)?,
            Count::Signals => self.signals = one_more(self.signals, what, 200_000, line)?,
            Count::Parts => self.parts = one_more(self.parts, what, 2_000_000, line)?,
            Count::Cells => {}
        }
        Ok(())
    }
}

/// One more, where that is within the limit.
fn one_more(counted: u32, what: Count, limit: u32, line: u32) -> Result<u32, ElabFault>
    ensures { CountsOne result counted what limit line }
{
    if limit <= counted {
        return Err(ElabFault::TooLarge {
            line,
            what,
            limit: u64::from(limit),
        });
    }
    Ok(counted + 1)
}
