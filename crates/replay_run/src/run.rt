//! A replay: its files judged, and the text that goes with them written.

ghost use Rattle.std.specs.Prelude.{◌≡◌, ◌≤◌, ◌<◌, IfSome, IsTrue, length, map};
ghost use Rattle.io_edge.specs.Faults.{Rose};
ghost use Rattle.io_edge.specs.Taken.{Appends, AppendsFront, Grows};
ghost use Rattle.io_edge.specs.Unread.{StopsAt};
ghost use Rattle.batch_run.specs.Texts.{requests_fault};
ghost use Rattle.replay_run.specs.Asked.{names_of, is_status, AsksByStatus, TakesFileLine, EndsAsAsked, TakesSome, Completes};
ghost use Rattle.replay_run.specs.Judged.{TakesText, TakesTextFront, judged_status, names_as};

use crate::judge::{Judged, Replay, judge};
use crate::write::write;
use io_edge::{Files, ReadEnd, Sink, SinkEnd};
use listen::Listener;
use run_status::Ending;
use std::alloc::Global;

/// Writes the text that goes with what was judged, and gives the status.
fn end<S: Sink>(alloc: Global, judged: Judged, listeners: Vec<Box<dyn Listener>>, out: &mut S) -> u8
    requires few { length listeners.items ≤ 65536 }
    ensures statuses { IsTrue (is_status result) }
    ensures status { result < 7 → result ≡ judged_status judged }
    ensures done { result < 7 → TakesText (map (λ b. heard b) listeners.items) judged (S.taken out.old) (S.taken out.new) }
    ensures no_read { result ≡ 7 → ⊥ }
    ensures write { result ≡ 8 → Rose (S.fault_count out.old) (S.fault_count out.new) }
    ensures front { 7 < result → TakesTextFront (map (λ b. heard b) listeners.items) judged (S.taken out.old) (S.taken out.new) }
    ensures later { S.fault_count out.old ≤ S.fault_count out.new }
{
    let status = judged.status();
    match write(alloc, judged, listeners, out) {
        Ok(()) => status,
        Err(SinkEnd::Failed) => Ending::NotTaken.status(),
        Err(SinkEnd::NoMemory) => Ending::OutOfMemory.status(),
    }
}

/// Does what a replay asks, and gives the status of the program. The symbol file, the value change dump file and the requests are read in
/// this order, and each is judged before the next is read. Nothing is written before all of them were judged. The listeners, at
/// most 65,536, are those of the session.
///
/// | Status | Where | Output |
/// |---|---|---|
/// | 0 | none of the rest | the lines of the session |
/// | 5 | the symbol file is refused, or the dump file, or that it is bound to the symbols in the scope | the line of the refusal |
/// | 6 | the requests have more than 16 MiB | `requests fault 1 TooLong` |
/// | 7 | a file was not read | nothing |
/// | 8 | the output failed | a front of it |
/// | 9 | memory ran out | a front of it |
#[tactic(auto, using(crate::proofs::Ending::files_late, io_edge::proofs::Stops::grows_not))]
pub fn run_replay<F: Files, S: Sink>(
    alloc: Global,
    replay: &Replay<'_>,
    files: &mut F,
    out: &mut S,
    listeners: Vec<Box<dyn Listener>>,
) -> u8
    requires few { length listeners.items ≤ 65536 }
    ensures statuses { IsTrue (is_status result) }

    // Each refusal has its line.
    ensures file_line { result ≡ 5 → TakesFileLine (S.taken out.old) (S.taken out.new) }
    ensures requests_line { result ≡ 6 → Appends (S.taken out.old) (S.taken out.new) requests_fault }

    // Where the files are told: the status and the whole text that they ask for; and where nothing fails, no other but want of memory.
    ensures done { result < 7
        → IfSome (F.told files.old) (λ told. EndsAsAsked (map (λ b. heard b) listeners.items) told (names_as replay.now) result (S.taken out.old)
        (S.taken out.new)) }
    ensures complete { IfSome (F.told files.old) (λ told. Completes (map (λ b. heard b) listeners.items) told (names_as replay.now) result
        (S.taken out.old) (S.taken out.new)
        (Rose (F.fault_count files.old) (F.fault_count files.new)) (Rose (S.fault_count out.old) (S.fault_count out.new))) }

    // The files that are asked for are those of the replay, in their order: up to the one that is refused, or that was not read.
    ensures asked { AppendsFront (F.asked files.old) (F.asked files.new) (names_of (names_as replay.now)) }
    ensures files { AsksByStatus (names_as replay.now) result (F.asked files.old) (F.asked files.new) (S.taken out.old) (S.taken out.new) }
    ensures unread { result ≡ 7 → StopsAt F.asked F.fault_count files.old files.new (names_of (names_as replay.now)) }

    // A fault of the files, before anything was written; a fault of the output, or want of memory: a front of the text.
    ensures read { result ≡ 7 → Rose (F.fault_count files.old) (F.fault_count files.new) }
    ensures nothing { result ≡ 7 → S.taken out.new ≡ S.taken out.old }
    ensures write { result ≡ 8 → Rose (S.fault_count out.old) (S.fault_count out.new) }
    ensures front { 7 < result
        → IfSome (F.told files.old) (λ told. TakesSome (map (λ b. heard b) listeners.items) told (names_as replay.now) (S.taken out.old) (S.taken out.new)) }

    // What stays: what the files tell, the bytes that the sink took before, and no count falls.
    ensures same { F.told files.new ≡ F.told files.old }
    ensures kept { Grows (S.taken out.old) (S.taken out.new) }
    ensures read_later { F.fault_count files.old ≤ F.fault_count files.new }
    ensures write_later { S.fault_count out.old ≤ S.fault_count out.new }
{
    match judge(alloc, replay, files) {
        Ok(judged) => end(alloc, judged, listeners, out),
        Err(ReadEnd::Failed) => Ending::NotRead.status(),
        Err(ReadEnd::NoMemory) => Ending::OutOfMemory.status(),
    }
}
