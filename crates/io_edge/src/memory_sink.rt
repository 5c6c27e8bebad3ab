//! A sink in memory with made faults, by which tests show what stands after a write that failed.

ghost use Rattle.std.specs.Prelude.{◌≡◌, ◌≤◌, ◌+◌, ◌++◌, [], length, is_ok, nat_le, vec_len, vec_capacity, Some, IfOk, OnOk, OnErr, if◌then◌else◌};
ghost use Rattle.io_edge.specs.Faults.{Rose};
ghost use Rattle.io_edge.specs.Taken.{AppendsFront};
ghost use Rattle.io_edge.specs.MemorySink.{after_put, next_put_fails, takes_whole};

use crate::{Failed, Sink};
use std::alloc::Global;
use std::marker::Model;
use text_core::NoMemory;

/// A sink in memory, which tells all of its meanings. A put fails where its number is one of those that the sink is made
/// to fail in, and where its part is beyond the room that is left, and in no other case. The count of faults rises by one
/// in each of these.
#[derive(Drop)]
pub struct MemSink {
    taken: Vec<u8>,
    room: usize,
    failing: Vec<u64>,
    puts: u64,
    faults: u64,
}

impl Model for MemSink {
    ghost use Rattle.std.specs.Prelude.{◌≤◌, vec_len, vec_capacity};
    ghost use Rattle.io_edge.specs.MemorySink.{SinkInMemory};

    ghost Value = { SinkInMemory };

    ghost view = { λ s. record {
      taken = s.taken.items;
      room = s.room;
      failing = s.failing.items;
      puts = s.puts;
      faults = s.faults;
    } };

    // The room is reserved, so that no put asks for memory.
    ghost invariant = { λ s. (vec_len s.taken ≤ s.room) × (s.room ≤ vec_capacity s.taken) };
}

/// Appends a part to what was taken, if there is room for it. The answer is whether there was.
fn take_within(taken: &mut Vec<u8>, room: usize, part: &[u8]) -> bool
    requires within { vec_len taken.old ≤ room }
    requires reserved { room ≤ vec_capacity taken.old }
    ensures fits { result ≡ nat_le (length taken.old.items + length part.now) room }
    ensures items { taken.new.items ≡ (if result then taken.old.items ++ part.now else taken.old.items) }
    ensures within { vec_len taken.new ≤ room }
    ensures reserved { room ≤ vec_capacity taken.new }
{
    part.len() <= room - taken.len() && taken.extend_from_slice(part).is_ok()
}

impl MemSink {
    /// An empty sink with room for so many bytes in all. The puts whose number, from 0, is in `failing` take the first
    /// half of their piece, rounded down, and fail; a number stays at 2^64 - 1. A put whose part, the half or else the
    /// whole piece, is beyond the room that is left takes nothing and fails.
    pub fn new(alloc: Global, room: usize, failing: Vec<u64>) -> Result<MemSink, NoMemory>
        ensures { IfOk result (λ made. made ≡ record { taken = []; room = room; failing = failing.items; puts = 0; faults = 0 }) }
    {
        Ok(MemSink {
            taken: Vec::with_capacity(alloc, room)?,
            room,
            failing,
            puts: 0,
            faults: 0,
        })
    }

    /// The bytes that were taken.
    pub fn bytes(&self) -> &[u8]
        ensures { result.now ≡ self.now.taken }
    {
        &self.taken
    }

    /// Whether the next put is one of those that fail.
    fn next_fails(&self) -> bool
        ensures { result ≡ next_put_fails self.now }
    {
        self.failing.contains(&self.puts)
    }
}

impl Sink for MemSink {
    ghost taken = { λ s. Some s.taken };

    ghost fault_count = { λ s. s.faults };

    fn faults(&self) -> u64 {
        self.faults
    }

    fn put(&mut self, piece: &[u8]) -> Result<(), Failed>
        // What the sink is before the put decides the answer and what the put leaves.
        ensures answer { is_ok result ≡ takes_whole self.old piece.now }
        ensures after { self.new ≡ after_put piece.now self.old }

        // What holds of all sinks.
        ensures ok { OnOk result (self.new.taken ≡ self.old.taken ++ piece.now) }
        ensures front { OnErr result (AppendsFront (Some self.old.taken) (Some self.new.taken) piece.now) }
        ensures later { self.old.faults ≤ self.new.faults }
        ensures failed { OnErr result (Rose self.old.faults self.new.faults) }
    {
        let failing = self.next_fails();
        let part = if failing {
            &piece[..piece.len() / 2]
        } else {
            piece
        };
        self.puts = self.puts.saturating_add(1);
        let fits = take_within(&mut self.taken, self.room, part);
        if failing || !fits {
            self.faults = self.faults.saturating_add(1);
            return Err(Failed);
        }
        Ok(())
    }
}
