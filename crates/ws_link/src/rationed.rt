//! A stream that reads and writes only so often, and then says that it would block.
//!
//! A socket reads on until it has a message or the stream would block. With a ration no peer can hold it by sending parts of messages
//! on and on, and no slow peer can stretch a handshake. A step that a signal cut short counts too, and would block.

use crate::heard::is_for_now;
use std::io;
use std::io::{ErrorKind, Read, Write};

/// A stream with a ration of reads and one of writes, none at first. Nothing is told of its bytes.
#[derive(Drop)]
pub struct Rationed<S> {
    stream: S,
    reads: u32,
    writes: u32,
}

impl<S> Rationed<S> {
    /// The stream, as yet with no ration.
    pub fn new(stream: S) -> Rationed<S> {
        Rationed {
            stream,
            reads: 0,
            writes: 0,
        }
    }

    /// Allows so many reads and so many writes from here on.
    pub fn allow(&mut self, reads: u32, writes: u32) {
        self.reads = reads;
        self.writes = writes;
    }

    /// The stream itself, to set its options.
    pub fn stream(&self) -> &S {
        &self.stream
    }
}

fn would_block() -> io::Error {
    io::Error::from(ErrorKind::WouldBlock)
}

impl<S: Read> Read for Rationed<S> {
    fn read(&mut self, buf: &mut [u8]) -> io::Result<usize> {
        if self.reads == 0 {
            return Err(would_block());
        }
        self.reads -= 1;
        match self.stream.read(buf) {
            Err(error) if is_for_now(&error) => Err(would_block()),
            done => done,
        }
    }
}

impl<S: Write> Write for Rationed<S> {
    fn write(&mut self, buf: &[u8]) -> io::Result<usize> {
        if self.writes == 0 {
            return Err(would_block());
        }
        self.writes -= 1;
        match self.stream.write(buf) {
            Err(error) if is_for_now(&error) => Err(would_block()),
            done => done,
        }
    }

    fn flush(&mut self) -> io::Result<()> {
        self.stream.flush()
    }
}
