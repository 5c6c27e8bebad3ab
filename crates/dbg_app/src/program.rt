//! The program: it judges what the words say, and writes the text that goes with it.

ghost use Rattle.std.specs.Prelude.{◌≡◌, ◌≤◌, ◌<◌, ◌⊎◌, None, IsTrue, length, map};
ghost use Rattle.io_edge.specs.Faults.{Rose};
ghost use Rattle.io_edge.specs.Taken.{Appends, AppendsFront, Grows};
ghost use Rattle.dbg_app.specs.Command.{command_of};
ghost use Rattle.dbg_app.specs.Names.{AsksFrontOf, StopsInsideOf};
ghost use Rattle.batch_run.specs.Texts.{requests_fault};
ghost use Rattle.dbg_app.specs.Answers.{usage_fault, IfAsked};
ghost use Rattle.dbg_app.specs.Compiled.{CompilesCommand};
ghost use Rattle.dbg_app.specs.Judged.{HasText, IsCompiled, TakesText, TakesTextFront, judged_status};
ghost use Rattle.replay_run.specs.Asked.{TakesFileLine};
ghost use Rattle.dbg_app.specs.Call as call;
ghost use Rattle.dbg_app.specs.Call.{call_of, IfCalled, is_run_status, is_status_of, Compiles, EndsAsCalled, TakesSomeOf, CompletesCall};
ghost use Rattle.dbg_app.specs.Outcome.{is_status, is_status_for, is_usage_status, AsksByStatus, TakesDesignLine, TakesStimulusLine, EndsAsAsked, TakesSome, Completes};

use crate::demo::read_demo;
use crate::judge::{Judged, judge};
use crate::replay::read_replay;
use crate::write::write;
use demo_run::run_demo;
use io_edge::{Files, Sink, Words};
use listen::Listener;
use replay_run::run_replay;
use std::alloc::Global;

/// How a run ended: its status, which is 0 or from 2 to 9.
#[derive(Clone, Copy, PartialEq, Eq)]
pub struct Ended {
    pub status: u8,
}

/// Does what the words say.
///
/// The commands are `trail MODE SRC STIM TOP [NAME=N]..`, `sim MODE SRC STIM TOP [NAME=N]..`, `compile MODE SRC TOP [NAME=N]..`,
/// `symbols MODE SRC TOP [NAME=N]..`, `debug MODE SRC STIM REQ TOP [NAME=N]..`, where MODE is `opt` or `keep`, `replay SYM VCD SCOPE REQ`,
/// and `demo MODE N REQ`, where N is 1 to 4,000. The files are read in the order of the words, and behind SRC those that it imports, by their
/// numbers; each is judged before the next is read.
/// Nothing is written before all of them were judged. The listeners, at most 65,536, are those of the session of a `debug`, a `replay`
/// or a `demo`; the other commands drop them.
///
/// | Status | Where | Output |
/// |---|---|---|
/// | 0 | none of the rest | the whole trail, the waves as a value change dump file, the design as a Verilog module, its symbol file, the session's lines, or the line of the demo |
/// | 2 | the words are no command | `usage fault` |
/// | 3 | SRC or a file that it imports is no source, these are more than 64, or the design from the module TOP is refused | `design fault`, with the number and name of the refusal, and its fields |
/// | 4 | STIM is refused for the design's ports | `stimulus fault`, with the number and name of the refusal, and its row and column |
/// | 5 | SYM is no symbol file, VCD no value change dump file, or it is not bound to the symbols in SCOPE | `table fault`, `vcd fault` or `bind fault`, with the number and name of the refusal, and its fields |
/// | 6 | REQ has more than 16 MiB | `requests fault 1 TooLong` |
/// | 7 | a file was not read | nothing |
/// | 8 | the output failed | a front of it |
/// | 9 | memory ran out | a front of it |
pub fn run<F: Files, S: Sink>(
    alloc: Global,
    words: &Words,
    files: &mut F,
    out: &mut S,
    listeners: Vec<Box<dyn Listener>>,
) -> Ended
    requires few { length listeners.items ≤ 65536 }
    ensures statuses { IsTrue (is_run_status result.status) }
    ensures row { IsTrue (is_status_of (call_of words.now) result.status) }

    // The words are no command exactly where the status is 2, unless the output fails or memory runs out.
    ensures usage { result.status ≡ 2 → call_of words.now ≡ None }
    ensures no_command { call_of words.now ≡ None → IsTrue (is_usage_status result.status) }

    // Each refusal has its line.
    ensures usage_line { result.status ≡ 2 → Appends (S.taken out.old) (S.taken out.new) usage_fault }
    ensures design_line { result.status ≡ 3 → TakesDesignLine (S.taken out.old) (S.taken out.new) }
    ensures stimulus_line { result.status ≡ 4 → TakesStimulusLine (S.taken out.old) (S.taken out.new) }
    ensures file_line { result.status ≡ 5 → TakesFileLine (S.taken out.old) (S.taken out.new) }
    ensures requests_line { result.status ≡ 6 → Appends (S.taken out.old) (S.taken out.new) requests_fault }

    // Where the files are told: the status and the whole text that they ask for.
    ensures done { result.status < 7
        → IfCalled (F.told files.old) (call_of words.now) (λ told call. EndsAsCalled (map (λ b. heard b) listeners.items) told call result.status
        (S.taken out.old) (S.taken out.new)) }

    // Where the files ask for an answer and nothing fails: its status and the whole of its text, or want of memory. Where the
    // design has several loops, it may be the text of another of them.
    ensures complete { IfCalled (F.told files.old) (call_of words.now) (λ told call.
        CompletesCall (map (λ b. heard b) listeners.items) told call result.status (S.taken out.old) (S.taken out.new)
        (Rose (F.fault_count files.old) (F.fault_count files.new)) (Rose (S.fault_count out.old) (S.fault_count out.new))) }

    // The files that are asked for are those of the words, in their order, and behind a source those that it imports, by their numbers:
    // up to the one that is refused, or that was not read.
    ensures asked { call.AsksFrontOf (F.told files.old) (call_of words.now) (F.asked files.old) (F.asked files.new) }
    ensures files { call.AsksByStatus (F.told files.old) (call_of words.now) result.status (F.asked files.old) (F.asked files.new) (S.taken out.old)
        (S.taken out.new) }
    ensures unread { result.status ≡ 7 → call.StopsInsideOf (F.told files.old) (call_of words.now) F.asked F.fault_count files.old files.new }

    // A fault of the files, before anything was written.
    ensures read { result.status ≡ 7 → Rose (F.fault_count files.old) (F.fault_count files.new) }
    ensures nothing { result.status ≡ 7 → S.taken out.new ≡ S.taken out.old }

    // A fault of the output, or want of memory: a front of the text.
    ensures write { result.status ≡ 8 → Rose (S.fault_count out.old) (S.fault_count out.new) }
    ensures front { 7 < result.status
        → IfCalled (F.told files.old) (call_of words.now) (λ told call. TakesSomeOf (map (λ b. heard b) listeners.items) told call (S.taken out.old)
        (S.taken out.new)) }
    ensures usage_front { call_of words.now ≡ None → AppendsFront (S.taken out.old) (S.taken out.new) usage_fault }

    // With status 0 of `symbols`, `sim` and `debug`: the design has the net and the table that they stand on.
    ensures compiled { result.status ≡ 0 → IfCalled (F.told files.old) (call_of words.now) Compiles }

    // What stays: what the files tell, the bytes that the sink took before, and no count falls.
    ensures same { F.told files.new ≡ F.told files.old }
    ensures kept { Grows (S.taken out.old) (S.taken out.new) }
    ensures read_later { F.fault_count files.old ≤ F.fault_count files.new }
    ensures write_later { S.fault_count out.old ≤ S.fault_count out.new }
{
    match read_replay(words) {
        Some(replay) => Ended {
            status: run_replay(alloc, &replay, files, out, listeners),
        },
        None => match read_demo(words) {
            Some(demo) => Ended {
                status: run_demo(alloc, &demo, files, out, listeners),
            },
            None => run_design(alloc, words, files, out, listeners),
        },
    }
}

/// Does what the words of a command over a design say: judges its files, and writes what goes with them.
fn run_design<F: Files, S: Sink>(
    alloc: Global,
    words: &Words,
    files: &mut F,
    out: &mut S,
    listeners: Vec<Box<dyn Listener>>,
) -> Ended
    requires few { length listeners.items ≤ 65536 }
    ensures statuses { IsTrue (is_status result.status) }
    ensures row { IsTrue (is_status_for (command_of words.now) result.status) }

    // The words are no command exactly where the status is 2, unless the output fails or memory runs out.
    ensures usage { result.status ≡ 2 → command_of words.now ≡ None }
    ensures no_command { command_of words.now ≡ None → IsTrue (is_usage_status result.status) }

    // Each refusal has its line.
    ensures usage_line { result.status ≡ 2 → Appends (S.taken out.old) (S.taken out.new) usage_fault }
    ensures design_line { result.status ≡ 3 → TakesDesignLine (S.taken out.old) (S.taken out.new) }
    ensures stimulus_line { result.status ≡ 4 → TakesStimulusLine (S.taken out.old) (S.taken out.new) }
    ensures requests_line { result.status ≡ 6 → Appends (S.taken out.old) (S.taken out.new) requests_fault }

    // Where the files are told: the status and the whole text that they ask for.
    ensures done { result.status < 7
        → IfAsked (F.told files.old) (command_of words.now) (λ told command. EndsAsAsked
        (map (λ b. heard b) listeners.items) told command result.status (S.taken out.old) (S.taken out.new)) }

    // Where the files ask for an answer and nothing fails: its status and the whole of its text, or want of memory. Where the
    // design has several loops, it may be the text of another of them.
    ensures complete { IfAsked (F.told files.old) (command_of words.now) (λ told command.
        Completes (map (λ b. heard b) listeners.items) told command result.status (S.taken out.old) (S.taken out.new)
        (Rose (F.fault_count files.old) (F.fault_count files.new)) (Rose (S.fault_count out.old) (S.fault_count out.new))) }

    // The files that are asked for are those of the words, in their order, and behind the source those that it imports, by their
    // numbers: up to the one that is refused, or that was not read.
    ensures asked { AsksFrontOf (F.told files.old) (command_of words.now) (F.asked files.old) (F.asked files.new) }
    ensures files { AsksByStatus (F.told files.old) (command_of words.now) result.status (F.asked files.old) (F.asked files.new) }
    ensures unread { result.status ≡ 7 → StopsInsideOf (F.told files.old) (command_of words.now) F.asked F.fault_count files.old files.new }

    // A fault of the files, before anything was written.
    ensures read { result.status ≡ 7 → Rose (F.fault_count files.old) (F.fault_count files.new) }
    ensures nothing { result.status ≡ 7 → S.taken out.new ≡ S.taken out.old }

    // A fault of the output, or want of memory: a front of the text.
    ensures write { result.status ≡ 8 → Rose (S.fault_count out.old) (S.fault_count out.new) }
    ensures front { 7 < result.status
        → IfAsked (F.told files.old) (command_of words.now) (λ told command. TakesSome (map (λ b. heard b) listeners.items) told command
        (S.taken out.old) (S.taken out.new)) }
    ensures usage_front { command_of words.now ≡ None → AppendsFront (S.taken out.old) (S.taken out.new) usage_fault }

    // With status 0 of `symbols`, `sim` and `debug`: the design has the net and the table that they stand on.
    ensures compiled { result.status ≡ 0 → IfAsked (F.told files.old) (command_of words.now) CompilesCommand }

    // What stays: what the files tell, the bytes that the sink took before, and no count falls.
    ensures same { F.told files.new ≡ F.told files.old }
    ensures kept { Grows (S.taken out.old) (S.taken out.new) }
    ensures read_later { F.fault_count files.old ≤ F.fault_count files.new }
    ensures write_later { S.fault_count out.old ≤ S.fault_count out.new }
{
    match judge(alloc, words, files) {
        Ok(judged) => end(alloc, judged, listeners, out),
        Err(halt) => Ended {
            status: halt.status(),
        },
    }
}

/// Writes the text that goes with what was judged.
pub(crate) fn end<S: Sink>(
    alloc: Global,
    judged: Judged,
    listeners: Vec<Box<dyn Listener>>,
    out: &mut S,
) -> Ended
    requires text { HasText judged }
    requires few { length listeners.items ≤ 65536 }
    ensures statuses { IsTrue (is_status result.status) }
    ensures status { result.status < 7 → result.status ≡ judged_status judged }
    ensures done { result.status < 7 → TakesText (map (λ b. heard b) listeners.items) judged (S.taken out.old) (S.taken out.new) }
    ensures no_read { result.status ≡ 7 → ⊥ }
    ensures write { result.status ≡ 8 → Rose (S.fault_count out.old) (S.fault_count out.new) }
    ensures front { 7 < result.status → TakesTextFront (map (λ b. heard b) listeners.items) judged (S.taken out.old) (S.taken out.new) }
    ensures compiled { result.status ≡ 0 → IsCompiled judged }
    ensures later { S.fault_count out.old ≤ S.fault_count out.new }
{
    let status = judged.status();
    match write(alloc, judged, listeners, out) {
        Ok(()) => Ended { status },
        Err(halt) => Ended {
            status: halt.status(),
        },
    }
}
