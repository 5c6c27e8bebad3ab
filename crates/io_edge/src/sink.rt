//! What the program may expect of what it writes to. A front may be taken where a put fails, so a failed put ends a run.

ghost use Rattle.std.specs.Prelude.{◌≡◌, ◌≤◌, List, ℕ, Option, OnOk, OnErr};
ghost use Rattle.io_edge.specs.Faults.{Rose};
ghost use Rattle.io_edge.specs.Taken.{Appends, AppendsFront};

/// A piece was not taken as a whole; the count of faults rose.
#[derive(Clone, Copy, PartialEq, Eq)]
pub struct Failed;

/// What takes the bytes that a program writes, piece by piece.
pub trait Sink {
    /// The bytes that were taken, in order, where the object tells them.
    ghost taken: { Self → Option (List ℕ) };

    /// How many puts have failed, from 0 to 2^64 - 1.
    ghost fault_count: { Self → ℕ };

    /// The count of faults. It never falls, and stays at 2^64 - 1.
    fn faults(&self) -> u64
        ensures { result ≡ fault_count self.now };

    /// Takes a piece: the whole of it, or a front of it where the answer is `Failed`. Takes no memory.
    fn put(&mut self, piece: &[u8]) -> Result<(), Failed>
        ensures ok { OnOk result (Appends (taken self.old) (taken self.new) piece.now) }
        ensures front { OnErr result (AppendsFront (taken self.old) (taken self.new) piece.now) }
        ensures later { fault_count self.old ≤ fault_count self.new }
        ensures failed { OnErr result (Rose (fault_count self.old) (fault_count self.new)) };
}
