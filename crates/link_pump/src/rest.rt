//! What a loop does that has nothing to do: for a while it tries again at once, and then it sleeps between two tries.
//!
//! Nothing wakes a sleeper: it sleeps a millisecond at most, so that no side has to know of the other's sleep. A client that sends one
//! request after the other finds both sides awake.

use std::sync::Wait;
use std::thread;
use std::thread::Parker;
use std::time::Duration;

/// So many steps in a row without anything to do are followed by the next one at once.
const AWAKE: u32 = 1000;

/// So long a sleep lasts at most, in milliseconds.
const SLEEP_MILLIS: u64 = 1;

/// How many steps in a row had nothing to do.
#[derive(Drop)]
pub struct Rest {
    steps: u32,
}

impl Rest {
    /// As of a loop that has just begun.
    pub fn new() -> Rest {
        Rest { steps: 0 }
    }

    /// There was something to do.
    pub fn end(&mut self) {
        self.steps = 0;
    }

    /// Goes on to the next step, as one in which there is nothing to do, unless `end` is called in it.
    pub fn step<R: Wait>(&mut self, rt: &R) {
        if self.steps >= AWAKE {
            Parker::new().park_timeout(rt, Duration::from_millis(SLEEP_MILLIS));
            return;
        }
        if self.steps > 0 {
            thread::yield_now();
        }
        self.steps += 1;
    }
}
