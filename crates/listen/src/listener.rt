//! What is told of each stop. A listener can neither fail nor refuse, so no stop is ever lost by one.

ghost use Rattle.std.specs.Prelude.{◌≡◌, ◌<◌, length, slice_get, Some};
ghost use Rattle.listen.specs.Pairs.{Heard, after};

use crate::StopNote;

/// What is told of each stop of a session, and keeps pairs of numbers. None of its calls fails or takes memory.
pub trait Listener: Drop {
    /// Its kind and its pairs.
    ghost heard: { Self → Heard };

    /// What it counts by: 1 the line, 2 the cycle, 3 the slot, of the stops where a watch matches. With any other kind the pairs
    /// stay.
    fn kind(&self) -> u32
        ensures { result ≡ (heard self.now).kind };

    /// Takes a stop into account.
    fn stopped(&mut self, note: &StopNote)
        ensures { heard self.new ≡ after note.now (heard self.old) };

    /// How many pairs there are.
    fn rows(&self) -> usize
        ensures { result ≡ length (heard self.now).pairs };

    /// The pair of a number, counted from 0, in the order in which the keys came.
    fn row(&self, i: usize) -> (u64, u64)
        requires { i < length (heard self.now).pairs }
        ensures { slice_get (heard self.now).pairs i ≡ Some result };
}
