//! A file means what was written of it, so a reader that keeps to its definition loses nothing. The laws are of any file and not of
//! a net's, so that another writer can use them.

ghost use Rattle.vcd_text.specs.Told.{DumpsAreRead};
ghost use Rattle.vcd_text.specs.Waves.{WavesAreDumps, WavesAreTold};

/// The law that what is written of a file, up to 64 MiB, means the file when it is read: its scope, its variables and its
/// values, in order. Computes nothing.
pub fn dumps_are_read()
    ensures { DumpsAreRead }
{}

/// The law that the file of waves is one that can be written, and that by what it tells the clock rises once in each cycle,
/// and each variable has before that the value that it has in the cycle. Computes nothing.
pub fn waves_are_told()
    ensures written { WavesAreDumps }
    ensures told { WavesAreTold }
{}
