//! The file of a net's run tells the run when it is read; and whole files of small nets, computed from the definitions.

ghost use Rattle.vcd_write.specs.ReadBack.{WavesReadBack};
ghost use Rattle.vcd_write.specs.Sample.{counter_is_told, alone_is_told, CodesAre};

/// The files of small nets: a counter with an enable in three cycles; a register with no ports in no cycle; and codes of one,
/// two and three bytes. Computes nothing.
pub fn tells_the_samples()
    ensures counter { counter_is_told }
    ensures alone { alone_is_told }
    ensures codes { CodesAre }
{}

/// The law that what is written of a net's run, up to 64 MiB, tells the run when it is read: it means its variables and its
/// changes, and the samples of the nodes and of the outputs, found by their names, are those of the run. Computes nothing.
pub fn waves_read_back()
    ensures { WavesReadBack }
{}
