//! How a run of the program ends, and the status that tells it: one type for all commands, so that a number stands in one place.
#![tactic(auto)]

ghost use Rattle.std.specs.Prelude.{◌≡◌};
ghost use Rattle.run_status.specs.Statuses.{status_of};

/// The ways in which a run ends. The words are judged before the files, each file before the next, and all of them before a byte is
/// written. A file that is not read ends the run where it stands in that order. An output that fails, or want of memory, takes the place of
/// what else would have come.
#[derive(Clone, Copy)]
pub enum Ending {
    /// All of the text is written.
    Written,
    /// The words are no command.
    NoCommand,
    /// The source, a file that it imports, or its design is refused.
    NoDesign,
    /// The stimulus is refused.
    NoStimulus,
    /// The symbol file or the dump file is refused, or they do not belong together.
    NoTrace,
    /// The requests are too long.
    NoRequests,
    /// A file was not read.
    NotRead,
    /// The output failed.
    NotTaken,
    /// Memory ran out.
    OutOfMemory,
    /// What an editor sends is not framed as its protocol says. All is written that was answered before.
    BadInput,
}

impl Ending {
    /// The status of the program: 0, or from 2 to 10. Takes no memory.
    pub const fn status(self) -> u8
        ensures { result ≡ status_of self }
    {
        match self {
            Ending::Written => 0,
            Ending::NoCommand => 2,
            Ending::NoDesign => 3,
            Ending::NoStimulus => 4,
            Ending::NoTrace => 5,
            Ending::NoRequests => 6,
            Ending::NotRead => 7,
            Ending::NotTaken => 8,
            Ending::OutOfMemory => 9,
            Ending::BadInput => 10,
        }
    }
}
