//! The program as the debugger of an editor: it judges what the words say, and converses over standard input and output.

ghost use Rattle.std.specs.Prelude.{◌≡◌, ◌≤◌, ◌<◌, [], Some, None, IfSome, IsTrue, drop, is_some, length};
ghost use Rattle.std.specs.Option.{option_map};
ghost use Rattle.io_edge.specs.Faults.{Rose};
ghost use Rattle.io_edge.specs.Taken.{Appends, AppendsFront, Grows};
ghost use Rattle.dbg_app.specs.Asked.{requests_as, stimulus_as};
ghost use Rattle.dbg_app.specs.Command.{Trail, command_with as the_command_with, over_rows};
ghost use Rattle.dbg_app.specs.Names.{AsksFrontOf, StopsInsideOf};
ghost use Rattle.dbg_app.specs.Answers.{usage_fault, IfAsked};
ghost use Rattle.dbg_app.specs.Judged.{HasText, TakesText, TakesTextFront, judged_status};
ghost use Rattle.dbg_app.specs.Outcome.{is_status, is_usage_status, TakesDesignLine, TakesStimulusLine, EndsAsAsked};
ghost use Rattle.dbg_app.specs.Dap.{dap_of, talk_as, talk_status as the_talk_status, is_dap_status, is_front, is_refused, is_whole, AsksByStatus, CompletesTalk, IsUnheard, NotAllRead, Talked, TalksFront};

use crate::command::{Command, OverRows, Task, command_with, mode_of};
use crate::judge::Judged;
use crate::program::{Ended, end};
use crate::shown::{Shown, judge_named};
use dap_net::converse;
use dap_run::TalkEnd;
use io_edge::{Files, Sink, Source, Words};
use run_status::Ending;
use std::alloc::Global;
use std::sync::Wait;
use world_core::Mode;

/// What the words of a conversation name: the files of a design and its stimulus.
#[derive(Clone, Copy)]
pub(crate) struct Talk<'a> {
    pub(crate) command: Command<'a>,
    pub(crate) stimulus: &'a str,
}

/// A conversation with these further words, if they may stand in one. The arguments of the top are the words from the sixth on.
fn talk_with<'a>(
    source: &'a str,
    stimulus: &'a str,
    top: &'a str,
    words: &'a Words,
    mode: Mode,
) -> Option<Talk<'a>>
    requires { 5 ≤ length words.now }
    ensures talk { option_map talk_as result ≡ the_command_with Trail source.now (Some stimulus.now) None top.now (drop 5 words.now) mode }
    ensures stimulus { IfSome result (λ talk. stimulus_as talk.command.task ≡ Some talk.stimulus.now) }
    ensures requests { IfSome result (λ talk. requests_as talk.command.task ≡ None) }
{
    let task = Task::Over(OverRows::Trail, stimulus);
    let command = command_with(task, mode, source, top, words, 5)?;
    Some(Talk { command, stimulus })
}

/// The words `.. MODE SRC STIM TOP [NAME=N]..`, whatever the first is, as those of a conversation.
fn talk_over<'a>(words: &'a Words) -> Option<Talk<'a>>
    ensures talk { option_map talk_as result ≡ over_rows Trail words.now }
    ensures stimulus { IfSome result (λ talk. stimulus_as talk.command.task ≡ Some talk.stimulus.now) }
    ensures requests { IfSome result (λ talk. requests_as talk.command.task ≡ None) }
{
    if words.count() < 5 {
        return None;
    }
    let mode = mode_of(words.word(1))?;
    talk_with(words.word(2), words.word(3), words.word(4), words, mode)
}

/// The conversation `dap MODE SRC STIM TOP [NAME=N]..` that the words are, if they are one.
fn read_talk<'a>(words: &'a Words) -> Option<Talk<'a>>
    ensures talk { option_map talk_as result ≡ dap_of words.now }
    ensures stimulus { IfSome result (λ talk. stimulus_as talk.command.task ≡ Some talk.stimulus.now) }
    ensures requests { IfSome result (λ talk. requests_as talk.command.task ≡ None) }
{
    if words.count() == 0 || words.word(0) != "dap" {
        return None;
    }
    talk_over(words)
}

/// Whether the words are a conversation `dap MODE SRC STIM TOP [NAME=N]..`. Takes no memory.
pub fn is_dap(words: &Words) -> bool
    ensures { result ≡ is_some (dap_of words.now) }
{
    read_talk(words).is_some()
}

/// The status of a conversation that ended so.
fn talk_status(end: TalkEnd) -> u8
    ensures { result ≡ the_talk_status end }
{
    let way = match end {
        TalkEnd::Bye | TalkEnd::AtEnd => Ending::Written,
        TalkEnd::Fault(_) => Ending::BadInput,
        TalkEnd::NotRead => Ending::NotRead,
        TalkEnd::NotTaken => Ending::NotTaken,
        TalkEnd::NoMemory => Ending::OutOfMemory,
    };
    way.status()
}

/// Does what the words `dap MODE SRC STIM TOP [NAME=N]..` say, where MODE is `opt` or `keep`: reads and judges the files, and then converses
/// with an editor over the design's run, by messages of the Debug Adapter Protocol that it takes of the input and writes. Each message is
/// answered before more of the input is waited for, and a `disconnect` that was answered ends the run.
///
/// | Status | Where | Output |
/// |---|---|---|
/// | 0 | a `disconnect` was answered, or the input ended between messages | all that was answered |
/// | 2 | the words are no conversation | `usage fault` |
/// | 3 | SRC or a file that it imports is no source, these are more than 64, or the design from the module TOP is refused | `design fault`, with the number and name of the refusal, and its fields |
/// | 4 | STIM is refused for the design's ports | `stimulus fault`, with the number and name of the refusal, and its row and column |
/// | 7 | a file was not read; or the input was not | nothing; or all that was answered |
/// | 8 | the output failed | a front of it |
/// | 9 | memory ran out | a front of it |
/// | 10 | the input is not framed as the protocol says, before a `disconnect` was answered | all that was answered before |
///
/// Where no more comes of the input, it waits, and may never return.
pub fn run_dap<R: Wait, F: Files, I: Source, S: Sink>(
    rt: &R,
    alloc: Global,
    words: &Words,
    files: &mut F,
    input: &mut I,
    out: &mut S,
) -> Ended
    ensures statuses { IsTrue (is_dap_status result.status) }

    // The words are no conversation exactly where the status is 2, unless the output fails or memory runs out.
    ensures usage { result.status ≡ 2 → dap_of words.now ≡ None }
    ensures no_talk { dap_of words.now ≡ None → IsTrue (is_usage_status result.status) }

    // Each refusal has its line. There nothing is taken of the input; nor where the words are no conversation.
    ensures usage_line { result.status ≡ 2 → Appends (S.taken out.old) (S.taken out.new) usage_fault }
    ensures design_line { result.status ≡ 3 → TakesDesignLine (S.taken out.old) (S.taken out.new) }
    ensures stimulus_line { result.status ≡ 4 → TakesStimulusLine (S.taken out.old) (S.taken out.new) }
    ensures unheard { IsTrue (is_refused result.status) → IsUnheard (I.left input.old) (I.left input.new) (I.fault_count input.old) (I.fault_count input.new) }
    ensures no_input { dap_of words.now ≡ None → IsUnheard (I.left input.old) (I.left input.new) (I.fault_count input.old) (I.fault_count input.new) }

    // Where the files are told: the status and the whole line that they ask for; or, of what is accepted, all that was answered of what was
    // taken of the input, up to its end, a `disconnect`, or what is not framed, by the status.
    ensures refused { IsTrue (is_refused result.status)
        → IfAsked (F.told files.old) (dap_of words.now) (λ told command. EndsAsAsked [] told command result.status (S.taken out.old) (S.taken out.new)) }
    ensures talked { IsTrue (is_whole result.status)
        → IfAsked (F.told files.old) (dap_of words.now) (λ told command. Talked told command result.status (I.left input.old) (I.left input.new)
        (S.taken out.old) (S.taken out.new)) }

    // Where the files ask for an answer and nothing fails: its status, with the whole line of a refusal, or 10; or want of memory.
    ensures complete { IfAsked (F.told files.old) (dap_of words.now) (λ told command.
        CompletesTalk told command result.status (S.taken out.old) (S.taken out.new)
        (Rose (F.fault_count files.old) (F.fault_count files.new)) (Rose (I.fault_count input.old) (I.fault_count input.new))
        (Rose (S.fault_count out.old) (S.fault_count out.new))) }

    // The files that are asked for are those of the words, in their order, and behind the source those that it imports, by their
    // numbers: up to the one that is refused, or that was not read.
    ensures asked { AsksFrontOf (F.told files.old) (dap_of words.now) (F.asked files.old) (F.asked files.new) }
    ensures files { AsksByStatus (F.told files.old) (dap_of words.now) result.status (F.asked files.old) (F.asked files.new) }

    // A fault of the files, before anything was taken or written; or one of the input, where all that was answered was written.
    ensures unread { result.status ≡ 7 → NotAllRead (Rose (F.fault_count files.old) (F.fault_count files.new))
        (StopsInsideOf (F.told files.old) (dap_of words.now) F.asked F.fault_count files.old files.new)
        (IfAsked (F.told files.old) (dap_of words.now) (λ told command. Talked told command 7 (I.left input.old) (I.left input.new)
        (S.taken out.old) (S.taken out.new)))
        (I.left input.old) (I.left input.new) (I.fault_count input.old) (I.fault_count input.new) (S.taken out.old) (S.taken out.new) }

    // A fault of the output, or want of memory: a front of the text.
    ensures write { result.status ≡ 8 → Rose (S.fault_count out.old) (S.fault_count out.new) }
    ensures front { IsTrue (is_front result.status)
        → IfAsked (F.told files.old) (dap_of words.now) (λ told command.
        TalksFront told command result.status (I.left input.old) (I.left input.new) (I.fault_count input.old) (I.fault_count input.new)
        (S.taken out.old) (S.taken out.new)) }
    ensures usage_front { dap_of words.now ≡ None → AppendsFront (S.taken out.old) (S.taken out.new) usage_fault }

    // What stays: what the files tell, the bytes that the sink took before, and no count falls.
    ensures same { F.told files.new ≡ F.told files.old }
    ensures kept { Grows (S.taken out.old) (S.taken out.new) }
    ensures read_later { F.fault_count files.old ≤ F.fault_count files.new }
    ensures input_later { I.fault_count input.old ≤ I.fault_count input.new }
    ensures write_later { S.fault_count out.old ≤ S.fault_count out.new }
{
    let Some(talk) = read_talk(words) else {
        return refuse(alloc, Judged::NoCommand, out);
    };
    match judge_named(alloc, &talk.command, talk.stimulus, files) {
        Ok((shown, names)) => match shown {
            Shown::Accepted(service) => Ended {
                status: talk_status(converse(rt, alloc, &service, names, input, out)),
            },
            Shown::Refused(judged) => refuse(alloc, judged, out),
        },
        Err(halt) => Ended {
            status: halt.status(),
        },
    }
}

/// Writes the line of a refusal.
fn refuse<S: Sink>(alloc: Global, judged: Judged, out: &mut S) -> Ended
    requires text { HasText judged }
    ensures statuses { IsTrue (is_status result.status) }
    ensures status { result.status < 7 → result.status ≡ judged_status judged }
    ensures done { result.status < 7 → TakesText [] judged (S.taken out.old) (S.taken out.new) }
    ensures no_read { result.status ≡ 7 → ⊥ }
    ensures write { result.status ≡ 8 → Rose (S.fault_count out.old) (S.fault_count out.new) }
    ensures front { 7 < result.status → TakesTextFront [] judged (S.taken out.old) (S.taken out.new) }
    ensures later { S.fault_count out.old ≤ S.fault_count out.new }
{
    end(alloc, judged, Vec::new(alloc), out)
}
