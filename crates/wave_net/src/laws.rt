//! Laws of the waves of a design.

ghost use Rattle.wave_net.specs.Waves.{CompiledWavesAreKept, WavesTellRuns};

/// The law that the waves of a compiled net are those of the net of the kept trees. Computes nothing.
pub fn compiled_waves_are_kept()
    ensures { CompiledWavesAreKept }
{}

/// The law that in each cycle of the waves each node has the value of its tree in the run. Computes nothing.
pub fn waves_tell_runs()
    ensures { WavesTellRuns }
{}
