//! A sink that hands everything on to another one, and keeps the front of it, so that a refusal can be explained once the run is over.

ghost use Rattle.std.specs.Prelude.{◌≡◌, ◌≤◌};

use io_edge::{Failed, Sink};

/// How many bytes are kept at most. A line of a refusal is mostly shorter; of a longer one the front is enough.
const MOST: usize = 4096;

/// A sink, and the front of what it took.
#[derive(Drop)]
pub struct KeptSink<S> {
    sink: S,
    front: [u8; MOST],
    count: usize,
    ghost within: { count ≤ 4096 },
}

impl<S: Sink> KeptSink<S> {
    /// This sink, as yet with nothing kept.
    pub fn new(sink: S) -> KeptSink<S> {
        KeptSink {
            sink,
            front: [0u8; MOST],
            count: 0,
        }
    }

    /// The front of what was taken.
    pub fn front(&self) -> &[u8] {
        &self.front[..self.count]
    }

    /// Keeps the front of a piece, as far as there is room.
    fn keep(&mut self, piece: &[u8])
        ensures { self.new.sink ≡ self.old.sink }
    {
        let more = piece.len().min(MOST - self.count);
        let end = self.count + more;
        self.front[self.count..end].copy_from_slice(&piece[..more]);
        self.count = end;
    }
}

impl<S: Sink> Sink for KeptSink<S> {
    ghost taken = { λ s. S.taken s.sink };

    ghost fault_count = { λ s. S.fault_count s.sink };

    fn faults(&self) -> u64 {
        self.sink.faults()
    }

    fn put(&mut self, piece: &[u8]) -> Result<(), Failed> {
        self.sink.put(piece)?;
        self.keep(piece);
        Ok(())
    }
}
