//! The law of replay.

ghost use Rattle.replay_laws.specs.Replay.{WavesReplay};

use vcd_write::waves_read_back;

/// The law that the file of a net's run, up to 64 MiB, is bound in the scope of its module to a table whose nodes are the net's, that
/// its samples of the nodes that the table names are the run's, and that by them the table tells the world that it tells by the run.
/// Computes nothing.
pub fn waves_replay()
    ensures { WavesReplay }
{
    waves_read_back();
}
