//! The program `hgdb`.
//!
//! It makes the words of the command line, the adapters of the system and the listeners of the sessions, calls `dbg_app::serve` where
//! the words are a service, `dbg_app::run_dap` where they are a conversation with an editor, and `dbg_app::run` otherwise, and ends with the
//! status.
//! Standard output has what these write. Once that is over, `reasons` says on standard error why the run ended as it did.
#![tactic(auto)]

mod kept;
mod noted;
mod reasons;

use crate::kept::KeptSink;
use crate::noted::NotedFiles;
use crate::reasons::{explain, explain_address, explain_status};
use dbg_app::{address_of, is_dap, run, run_dap, serve};
use io_edge::{Sink, StdFiles, StdSink, StdSource, Words};
use listen::{CycleHits, LineHits, Listener};
use std::io::ErrorKind;
use std::marker::Send;
use std::net::Net;
use std::process::ExitCode;
use std::rt::{Env, Files};
use std::sync::Wait;
use std::thread::Threads;
use std::{env, io};
use text_core::NoMemory;
use ws_link::TcpDoor;

const VERSION: &str = "hgdb 0.2.0\n";

const HELP: &str = "\
hgdb shows what a hardware design does, statement by statement of its source.

Usage:
  hgdb trail MODE SRC STIM TOP [NAME=N]..
          print each executed statement with the variables before it
  hgdb compile MODE SRC TOP [NAME=N]..
          print the design as a Verilog module
  hgdb symbols MODE SRC TOP [NAME=N]..
          print where each variable of the source is found
  hgdb sim MODE SRC STIM TOP [NAME=N]..
          print the values of the design's net as a value change dump
  hgdb debug MODE SRC STIM REQ TOP [NAME=N]..
          print what a session over the design's run answers to requests
  hgdb replay SYM VCD SCOPE REQ
          print what a session over a simulator's trace answers to requests
  hgdb demo MODE N REQ
          print how many stops a session over a chain of N cells reaches
  hgdb serve MODE SRC STIM ADDR COUNT TOP [NAME=N]..
          serve sessions over the design's run to clients that attach
  hgdb serveall MODE SRC STIM ADDR COUNT TOP [NAME=N]..
          serve one session over the design's run to all that attach
  hgdb dap MODE SRC STIM TOP [NAME=N]..
          debug the design's run in an editor, by the Debug Adapter Protocol
          over standard input and output
  hgdb --help
          print this text
  hgdb --version
          print the version

  MODE    keep, where every name is kept, or opt, where a name that neither
          the outputs nor the conditions need is removed
  SRC     a source file; the files that it imports stand beside it
  STIM    a stimulus file
  REQ     a file with a request of the debugger in each line
  TOP     the module to run
  NAME=N  gives the parameter NAME of TOP the number N
  N       of a demo, 1 to 4000
  SYM     a symbol file
  VCD     a value change dump of the same design
  SCOPE   the names of the scopes around its module there and its own,
          joined by dots
  ADDR    the address of the server, HOST:PORT, as 127.0.0.1:4711
  COUNT   how many clients it serves: 1 to 16 one after the other, or
          1 to 8 at once

Exit status:
  0  all was printed                   6  the requests are too long
  2  the words are no command          7  a file was not read
  3  the source is refused             8  the output failed
  4  the stimulus is refused           9  memory ran out
  5  the symbol file or the dump is refused
  10 what an editor sends is not framed as its protocol says
";

/// The words of the command line without the program's name. Where a word is not UTF-8 there are none.
fn words(rt: &(impl Env + AllocGlobal)) -> Result<Words, NoMemory> {
    let mut words = Words::new(rt.alloc());
    let args = match env::args(rt) {
        Ok(args) => args,
        Err(error) if error.kind() == ErrorKind::OutOfMemory => return Err(NoMemory),
        Err(_) => return Ok(words),
    };
    for (place, arg) in args.enumerate() {
        if place > 0 {
            words.add(arg.as_str())?;
        }
    }
    Ok(words)
}

/// The text that the first word asks for, where it is `--help` or `--version`.
fn text_asked_for(words: &Words) -> Option<&'static str> {
    if words.count() == 0 {
        return None;
    }
    match words.word(0) {
        "--help" => Some(HELP),
        "--version" => Some(VERSION),
        _ => None,
    }
}

/// Prints a text, and gives the status.
fn print_text(rt: &impl Print, text: &str) -> u8 {
    match StdSink::new(rt).put(text.as_bytes()) {
        Ok(()) => 0,
        Err(_) => 8,
    }
}

/// Does what the words say over the system's files and its output, and gives the status. A session has two listeners of its stops: the
/// first counts them by line, the second by cycle. Fails only where there is no memory for these.
fn run_over<R: Files + Print + Eprint + AllocGlobal>(
    rt: &R,
    words: &Words,
) -> Result<u8, NoMemory> {
    let alloc = rt.alloc();
    let mut listeners: Vec<Box<dyn Listener>> = Vec::new(alloc);
    listeners.push(Box::new(alloc, LineHits::new(alloc)?)?)?;
    listeners.push(Box::new(alloc, CycleHits::new(alloc)?)?)?;
    let mut files = NotedFiles::new(rt.alloc(), StdFiles::new(rt));
    let mut out = KeptSink::new(StdSink::new(rt));
    let status = run(alloc, words, &mut files, &mut out, listeners).status;
    explain(rt, words, status, &files, out.front());
    Ok(status)
}

/// Converses with an editor over the system's files, its standard input and its output, as the words say, and gives the status.
fn converse_over<R: Files + Print + Eprint + Input + AllocGlobal + Wait>(
    rt: &R,
    words: &Words,
) -> u8 {
    let alloc = rt.alloc();
    let mut files = NotedFiles::new(rt.alloc(), StdFiles::new(rt));
    let mut input = StdSource::new(rt);
    let mut out = KeptSink::new(StdSink::new(rt));
    let status = run_dap(rt, alloc, words, &mut files, &mut input, &mut out).status;
    explain(rt, words, status, &files, out.front());
    status
}

/// Serves what the words say over the system's files, its output and its network, and gives the status. There are as many sets of the two
/// listeners as a service has sessions at most. Fails only where there is no memory for the address and the listeners.
fn serve_over<R: Files + Print + Eprint + AllocGlobal + Net + Threads + Wait + Sync>(
    rt: &R,
    words: &Words,
    address: &str,
) -> Result<u8, NoMemory>
where
    R::Stream: Send,
{
    let alloc = rt.alloc();
    let mut sets: Vec<Vec<Box<dyn Listener>>> = Vec::new(alloc);
    for _ in 0..16 {
        let mut set: Vec<Box<dyn Listener>> = Vec::new(alloc);
        set.push(Box::new(alloc, LineHits::new(alloc)?)?)?;
        set.push(Box::new(alloc, CycleHits::new(alloc)?)?)?;
        sets.push(set)?;
    }
    let mut door = TcpDoor::new(rt, alloc, address)?;
    let mut files = NotedFiles::new(rt.alloc(), StdFiles::new(rt));
    let mut out = KeptSink::new(StdSink::new(rt));
    let status = serve(rt, alloc, words, &mut files, &mut out, &mut door, sets).status;
    explain(rt, words, status, &files, out.front());
    explain_address(rt, address, door.refused());
    Ok(status)
}

/// The end of a run that came to no file, with what is said of its status.
fn ended(rt: &impl Eprint, status: u8) -> ExitCode {
    explain_status(rt, status);
    ExitCode::from(status)
}

fn main(rt: HostRuntime) -> io::Result<ExitCode> {
    let Ok(words) = words(&rt) else {
        return Ok(ended(&rt, 9));
    };
    if let Some(text) = text_asked_for(&words) {
        return Ok(ended(&rt, print_text(&rt, text)));
    }
    if is_dap(&words) {
        return Ok(ExitCode::from(converse_over(&rt, &words)));
    }
    let status = match address_of(&words) {
        Some(address) => serve_over(&rt, &words, address),
        None => run_over(&rt, &words),
    };
    match status {
        Ok(status) => Ok(ExitCode::from(status)),
        Err(_) => Ok(ended(&rt, 9)),
    }
}
