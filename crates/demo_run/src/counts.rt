//! Counts the stops of a session: each with the way that the answer before it granted.

ghost use Rattle.std.specs.Prelude.{◌≡◌, ◌≤◌, ◌<◌, ◌+◌, []};
ghost use Rattle.demo_run.specs.Answers.{Adds, Counted, answered_stops, granted_way as the_granted_way};

use crate::tally::Counts;
use dbg_core::{Answered, Body, Notice};
use trace_core::Way;

/// The way in which an idle session runs where it is granted this, if it runs.
fn granted_way(body: &Body) -> Option<Way>
    ensures { result ≡ the_granted_way body.now }
{
    match body {
        Body::Continue | Body::Step => Some(Way::Forward),
        Body::Reverse | Body::Back => Some(Way::Backward),
        _ => None,
    }
}

impl Counts {
    /// Those of no stop.
    pub(crate) fn none() -> Counts
        ensures { Counted [] result }
    {
        Counts {
            forward: 0,
            backward: 0,
            threads: 0,
        }
    }

    /// With a stop of so many threads that was reached while running this way.
    fn with_stop(self, way: Way, threads: u32) -> Counts
        requires few { self.forward + self.backward < 16777216 }
        ensures forward { way ≡ Way.Forward → (result.forward ≡ self.forward + 1) × (result.backward ≡ self.backward)
            × (result.threads ≡ self.threads + threads) }
        ensures backward { way ≡ Way.Backward → (result.forward ≡ self.forward) × (result.backward ≡ self.backward + 1) × (result.threads ≡ self.threads) }
    {
        match way {
            Way::Forward => Counts {
                forward: self.forward + 1,
                backward: self.backward,
                threads: self.threads + u64::from(threads),
            },
            Way::Backward => Counts {
                forward: self.forward,
                backward: self.backward + 1,
                threads: self.threads,
            },
        }
    }

    /// With the stop that an answer of a session tells that was idle before, if it tells one.
    pub(crate) fn with(self, answered: &Answered) -> Counts
        requires few { self.forward + self.backward < 16777216 }
        ensures adds { Adds self (answered_stops answered.now.reply.body answered.now.notice) result }
        ensures one { result.forward + result.backward ≤ self.forward + self.backward + 1 }
    {
        let Some(Notice::Stopped { note, .. }) = &answered.notice else {
            return self;
        };
        match granted_way(&answered.reply.body) {
            Some(way) => self.with_stop(way, note.threads),
            None => self,
        }
    }
}
