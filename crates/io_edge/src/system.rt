//! The adapters of the system's files, its standard output and its standard input: the trusted edge. They tell nothing of content; all that is proved of
//! them is what their traits promise of counts and answers.

ghost use Rattle.std.specs.Prelude.{◌≡◌, ◌≤◌, ◌<◌, None, Some, IfOk, IfErr, IfSome, length, take};
ghost use Rattle.std.specs.Io.KnownBytes.{Consumes, IsAtEnd};
ghost use Rattle.io_edge.specs.Files.{Answers};

use crate::{Failed, FileEnd, Files, Sink, Source, SourceEnd};
use std::alloc::Global;
use std::io::{ErrorKind, Input, Read};
use std::rt::Files as SystemFiles;

/// The system's files. Nothing is told of what they hold, nor of which names were asked for.
#[derive(Drop)]
pub struct StdFiles<R> {
    rt: R,
    faults: u64,
}

impl<R: SystemFiles> StdFiles<R> {
    /// The files that this runtime reaches, as yet without a fault.
    pub fn new(rt: R) -> StdFiles<R>
        ensures { ⟦<StdFiles<R> as Files>⟧.fault_count result ≡ 0 }
    {
        StdFiles { rt, faults: 0 }
    }
}

/// How many bytes one read asks for at most.
const PIECE: usize = 4096;

/// One read, made again where a signal cut it short. It answers how many bytes it put at the front of the piece.
fn read_some<R: Read>(source: &mut R, piece: &mut [u8]) -> Result<usize, FileEnd>
    requires { 0 < length piece.old }
    ensures within { IfOk result (λ count. count ≤ length piece.new) }
    ensures taken { IfOk result (λ count. Consumes (R.remaining source.old) (R.remaining source.new) (take count piece.new)) }
    ensures end { IfOk result (λ count. count ≡ 0 → IsAtEnd (R.remaining source.new)) }
    ensures failed { IfErr result (λ end. end ≡ FileEnd.Failed) }
{
    for _ in 0..u64::MAX {
        match source.read(piece) {
            Ok(count) => return Ok(count),
            Err(error) if error.kind() == ErrorKind::Interrupted => {}
            Err(_) => return Err(FileEnd::Failed),
        }
    }
    Err(FileEnd::Failed)
}

/// The bytes of a source up to its end, if there are no more than `most`. It takes at most one byte more than these
/// from the source.
fn read_up_to<R: Read>(alloc: Global, source: &mut R, most: usize) -> Result<Vec<u8>, FileEnd>
    ensures bytes { IfSome (R.remaining source.old) (λ left. Answers (Some left) most result) }
    ensures within { IfOk result (λ bytes. length bytes.items ≤ most) }
{
    let mut bytes = Vec::new(alloc);
    let mut piece = [0u8; PIECE];
    for _ in 0..u64::MAX {
        let room = most - bytes.len();
        let count = read_some(source, &mut piece[..room.min(PIECE - 1) + 1])?;
        if count == 0 {
            return Ok(bytes);
        }
        if count > room {
            return Err(FileEnd::TooLong);
        }
        bytes.extend_from_slice(&piece[..count])?;
    }
    Err(FileEnd::Failed)
}

impl<R: SystemFiles> Files for StdFiles<R> {
    ghost told = { λ _. None };

    ghost asked = { λ _. None };

    ghost fault_count = { λ f. f.faults };

    fn faults(&self) -> u64 {
        self.faults
    }

    fn read_all(&mut self, alloc: Global, name: &str, most: usize) -> Result<Vec<u8>, FileEnd> {
        let answer = match std::fs::open(&self.rt, name) {
            Ok(mut file) => read_up_to(alloc, &mut file, most),
            Err(_) => Err(FileEnd::Failed),
        };
        if let Err(FileEnd::Failed) = &answer {
            self.faults = self.faults.saturating_add(1);
        }
        answer
    }
}

/// The standard output. Nothing is told of what it took. What a put that answers Ok took has left the process.
#[derive(Drop)]
pub struct StdSink<R> {
    rt: R,
    faults: u64,
}

impl<R: Print> StdSink<R> {
    /// The standard output of this runtime, as yet without a fault.
    pub fn new(rt: R) -> StdSink<R>
        ensures { ⟦<StdSink<R> as Sink>⟧.fault_count result ≡ 0 }
    {
        StdSink { rt, faults: 0 }
    }
}

impl<R: Print> Sink for StdSink<R> {
    ghost taken = { λ _. None };

    ghost fault_count = { λ s. s.faults };

    fn faults(&self) -> u64 {
        self.faults
    }

    fn put(&mut self, piece: &[u8]) -> Result<(), Failed> {
        if self.rt.write_all(piece).is_err() {
            self.faults = self.faults.saturating_add(1);
            return Err(Failed);
        }
        Ok(())
    }
}

/// The standard input. Nothing is told of what it holds. A call answers what is there, and waits only where nothing is.
#[derive(Drop)]
pub struct StdSource<R> {
    rt: R,
    faults: u64,
}

impl<R: Input> StdSource<R> {
    /// The standard input of this runtime, as yet without a fault.
    pub fn new(rt: R) -> StdSource<R>
        ensures { ⟦<StdSource<R> as Source>⟧.fault_count result ≡ 0 }
    {
        StdSource { rt, faults: 0 }
    }
}

impl<R: Input> Source for StdSource<R> {
    ghost left = { λ _. None };

    ghost fault_count = { λ s. s.faults };

    fn faults(&self) -> u64 {
        self.faults
    }

    fn more(&mut self, alloc: Global) -> Result<Vec<u8>, SourceEnd> {
        // Room is there before anything is read, so that nothing that was read is lost.
        let mut bytes = Vec::with_capacity(alloc, PIECE)?;
        let mut piece = [0u8; PIECE];
        match read_some(&mut self.rt.reader(), &mut piece) {
            Ok(count) => {
                bytes.extend_from_slice(&piece[..count])?;
                Ok(bytes)
            }
            Err(_) => {
                self.faults = self.faults.saturating_add(1);
                Err(SourceEnd::Failed)
            }
        }
    }
}
