//! A demo: its design made and judged, its requests read, and the text that goes with them written.

ghost use Rattle.std.specs.Prelude.{◌≡◌, ◌≤◌, ◌<◌, [], ◌∷◌, IfSome, IsTrue, length, map};
ghost use Rattle.io_edge.specs.Faults.{Rose};
ghost use Rattle.io_edge.specs.Taken.{Appends, AppendsFront, Grows};
ghost use Rattle.io_edge.specs.Unread.{StopsAt};
ghost use Rattle.batch_run.specs.Texts.{requests_fault};
ghost use Rattle.demo_run.specs.Asked.{is_status, AsksByStatus, TakesDesignLine, TakesStimulusLine, EndsAsAsked, TakesSome, Completes};
ghost use Rattle.demo_run.specs.Judged.{HasText, TakesJudged, TakesJudgedFront, judged_status, given_as};

use crate::judge::{Demo, Judged, judge};
use crate::write::write;
use io_edge::{Files, ReadEnd, Sink, SinkEnd};
use listen::Listener;
use run_status::Ending;
use std::alloc::Global;

/// Writes the text that goes with what was judged, and gives the status.
fn end<S: Sink>(alloc: Global, judged: Judged, listeners: Vec<Box<dyn Listener>>, out: &mut S) -> u8
    requires text { HasText judged }
    requires few { length listeners.items ≤ 65536 }
    ensures statuses { IsTrue (is_status result) }
    ensures status { result < 7 → result ≡ judged_status judged }
    ensures done { result < 7 → TakesJudged (map (λ b. heard b) listeners.items) judged (S.taken out.old) (S.taken out.new) }
    ensures no_read { result ≡ 7 → ⊥ }
    ensures write { result ≡ 8 → Rose (S.fault_count out.old) (S.fault_count out.new) }
    ensures front { 7 < result → TakesJudgedFront (map (λ b. heard b) listeners.items) judged (S.taken out.old) (S.taken out.new) }
    ensures kept { Grows (S.taken out.old) (S.taken out.new) }
    ensures later { S.fault_count out.old ≤ S.fault_count out.new }
{
    let status = judged.status();
    match write(alloc, judged, listeners, out) {
        Ok(()) => status,
        Err(SinkEnd::Failed) => Ending::NotTaken.status(),
        Err(SinkEnd::NoMemory) => Ending::OutOfMemory.status(),
    }
}

/// Does what a demo asks, and gives the status of the program: a session over the run of a chain of so many cells, over a stimulus of
/// 1,000 rows of which each is its own number, answers the requests of a file, a line each, and is waited for after each of them. One
/// line tells how many instances and slots the design has, how many stops the session reached while running forwards and while running
/// backwards, and the sum of the numbers of threads of the former. Nothing is written before the requests were read. The
/// listeners, at most 65,536, are those of the session.
///
/// | Status | Where | Output |
/// |---|---|---|
/// | 0 | none of the rest | the line |
/// | 3 | the design is refused | the line of the refusal |
/// | 4 | the stimulus is refused | the line of the refusal |
/// | 6 | the requests have more than 16 MiB | `requests fault 1 TooLong` |
/// | 7 | the requests were not read | nothing |
/// | 8 | the output failed | a front of it |
/// | 9 | memory ran out | nothing, or a front of it |
#[tactic(auto, using(crate::proofs::Ending::files_late, io_edge::proofs::Stops::grows_not))]
pub fn run_demo<F: Files, S: Sink>(
    alloc: Global,
    demo: &Demo<'_>,
    files: &mut F,
    out: &mut S,
    listeners: Vec<Box<dyn Listener>>,
) -> u8
    requires few { length listeners.items ≤ 65536 }
    ensures statuses { IsTrue (is_status result) }

    // Each refusal has its line.
    ensures design_line { result ≡ 3 → TakesDesignLine (S.taken out.old) (S.taken out.new) }
    ensures stimulus_line { result ≡ 4 → TakesStimulusLine (S.taken out.old) (S.taken out.new) }
    ensures requests_line { result ≡ 6 → Appends (S.taken out.old) (S.taken out.new) requests_fault }

    // Where the files are told: the status and the whole text that they ask for; and where nothing fails, no other but want of memory.
    // Where the design has several loops, it may be the line of another of them.
    ensures done { result < 7
        → IfSome (F.told files.old) (λ told. EndsAsAsked (map (λ b. heard b) listeners.items) told (given_as demo.now) result (S.taken out.old)
        (S.taken out.new)) }
    ensures complete { IfSome (F.told files.old) (λ told. Completes (map (λ b. heard b) listeners.items) told (given_as demo.now) result
        (S.taken out.old) (S.taken out.new)
        (Rose (F.fault_count files.old) (F.fault_count files.new)) (Rose (S.fault_count out.old) (S.fault_count out.new))) }

    // No other file is asked for than that of the requests; it is, unless the design or the stimulus is refused.
    ensures asked { AppendsFront (F.asked files.old) (F.asked files.new) (demo.now.requests.now ∷ []) }
    ensures files { AsksByStatus (given_as demo.now) result (F.asked files.old) (F.asked files.new) }
    ensures unread { result ≡ 7 → StopsAt F.asked F.fault_count files.old files.new (demo.now.requests.now ∷ []) }

    // A fault of the files, before anything was written; a fault of the output, or want of memory: a front of the text.
    ensures read { result ≡ 7 → Rose (F.fault_count files.old) (F.fault_count files.new) }
    ensures nothing { result ≡ 7 → S.taken out.new ≡ S.taken out.old }
    ensures write { result ≡ 8 → Rose (S.fault_count out.old) (S.fault_count out.new) }
    ensures front { 7 < result
        → IfSome (F.told files.old) (λ told. TakesSome (map (λ b. heard b) listeners.items) told (given_as demo.now) (S.taken out.old) (S.taken out.new)) }

    // What stays: what the files tell, the bytes that the sink took before, and no count falls.
    ensures same { F.told files.new ≡ F.told files.old }
    ensures kept { Grows (S.taken out.old) (S.taken out.new) }
    ensures read_later { F.fault_count files.old ≤ F.fault_count files.new }
    ensures write_later { S.fault_count out.old ≤ S.fault_count out.new }
{
    match judge(alloc, demo, files) {
        Ok(judged) => end(alloc, judged, listeners, out),
        Err(ReadEnd::Failed) => Ending::NotRead.status(),
        Err(ReadEnd::NoMemory) => Ending::OutOfMemory.status(),
    }
}
