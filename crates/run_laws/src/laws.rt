//! The laws of replay, of waves and of demos, in the words of a run.

ghost use Rattle.run_laws.specs.Replayed.{HeldIsReplayed, PrintsAreReplayed};
ghost use Rattle.run_laws.specs.Waves.{WavesTellTheRun};
ghost use Rattle.run_laws.specs.Demos.{CountsCells, AsksByRequests, EndsUnrefused};

use chain_laws::requests_decide;
use headline_laws::replays_are_debugged;
use wave_net::waves_tell_runs;

/// The law that a replay of what `symbols` and `sim` print asks for status 0 and what `debug` prints, and for nothing else, where the
/// three end with status 0: `run` tells then what they ask for, and that the design has the net and the table that they stand on.
/// Computes nothing.
pub fn debug_is_replayed()
    ensures held { HeldIsReplayed }
    ensures prints { PrintsAreReplayed }
{
    replays_are_debugged();
}

/// The law that what `sim` prints tells the run of the source: in each cycle each node has the value of its kept tree. Computes nothing.
pub fn sim_tells_the_run()
    ensures { WavesTellTheRun }
{
    waves_tell_runs();
}

/// The law of words that are a demo: they give from 1 to 4,000 cells; where their file is there, the answer that they ask for has status 0 where its
/// requests have at most 16 MiB, and 6 where they have more, and there is none with another; and none ends as one that is refused. Computes nothing.
pub fn demos_are_answered()
    ensures count { CountsCells }
    ensures status { AsksByRequests }
    ensures ends { EndsUnrefused }
{
    requests_decide();
}
