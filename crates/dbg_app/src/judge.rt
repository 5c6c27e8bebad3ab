//! Reads the files of a command in the order of its words, and judges each.

ghost use Rattle.std.specs.Prelude.{◌≡◌, ◌<◌, ◌≤◌, ◌↔◌, IsTrue, [], ◌∷◌, Some, None, IfOk, IfSome, OnOk, OnErr, IsErrOf};
ghost use Rattle.io_edge.specs.Faults.{Rose};
ghost use Rattle.io_edge.specs.Taken.{Appends, AppendsFront};
ghost use Rattle.io_edge.specs.Unread.{StopsAt};
ghost use Rattle.design_core.specs.DesignView.{design_of};
ghost use Rattle.design_judge.specs.Accepting.{IsKept, accepting_of};
ghost use Rattle.project_read.specs.Asking.{AsksFront, StopsInside};
ghost use Rattle.design_judge.specs.Naming.{NamesAccepted, accepted_in};
ghost use Rattle.design_judge.specs.Judging.{AsksFiles, IsFit, IsWhole, JudgesFiles, JudgesStimulus};
ghost use Rattle.dbg_app.specs.Command.{command_of};
ghost use Rattle.dbg_app.specs.Names.{AsksFrontOf, StopsInsideOf};
ghost use Rattle.dbg_app.specs.Answers.{IfAsked, HoldsDesign};
ghost use Rattle.dbg_app.specs.Asked.{command_as};
ghost use Rattle.dbg_app.specs.declared.command.Task.TheVariants.{Session};
ghost use Rattle.dbg_app.specs.Judged.{AsksFor, HasText, Judges, RefusesNamed, RefusesOwn, asked_behind, judged_status};
ghost use Rattle.dbg_app.specs.Outcome.{is_status};

use crate::Halt;
use crate::arguments::given_in;
use crate::command::{Command, OfDesign, OverRows, Task, read_command};
use crate::requests::read_requests;
use design_core::Ports;
use design_judge::{Accepted, DesignFault, Named, judge_design, judge_named};
use io_edge::{Files, Words};
use run_status::Ending;
use std::alloc::Global;
use stim_text::{Stim, StimFault};
use world_core::Mode;

/// A command, judged: the words are none, the source, the stimulus or the requests are refused, or what it asks can be written.
#[derive(Drop)]
pub(crate) enum Judged {
    NoCommand,
    NoDesign(DesignFault),
    NoStimulus(StimFault),
    /// The requests are too long.
    NoRequests,
    /// What is asked of this design alone, in this mode.
    Alone(OfDesign, Mode, Accepted),
    /// What is asked of this design over this stimulus, in this mode.
    Over(OverRows, Mode, Accepted, Stim),
    /// What a session over this design's run over this stimulus puts out for these requests, in this mode.
    Session(Mode, Accepted, Stim, Vec<u8>),
}

impl Judged {
    /// The status of the program, where all of the text is written.
    pub(crate) fn status(&self) -> u8
        ensures status { result ≡ judged_status self.now }
        ensures known { IsTrue (is_status result) }
        ensures early { result < 7 }
    {
        match self {
            Judged::NoCommand => Ending::NoCommand.status(),
            Judged::NoDesign(_) => Ending::NoDesign.status(),
            Judged::NoStimulus(_) => Ending::NoStimulus.status(),
            Judged::NoRequests => Ending::NoRequests.status(),
            Judged::Alone(_, _, _) => Ending::Written.status(),
            Judged::Over(_, _, _, _) => Ending::Written.status(),
            Judged::Session(_, _, _, _) => Ending::Written.status(),
        }
    }
}

/// Reads the source of a command and the files that it imports, and judges their design.
pub(crate) fn judge_source<F: Files>(
    alloc: Global,
    command: &Command<'_>,
    files: &mut F,
) -> Result<Result<Accepted, DesignFault>, Halt>
    ensures judged { IfOk result (λ found. IfSome (F.told files.old) (λ told. JudgesFiles told command.now.source.now (command_as command.now).top found)) }
    ensures fit { IfOk result IsFit }
    ensures same { F.told files.new ≡ F.told files.old }
    ensures asked { IfOk result (AsksFiles (F.told files.old) command.now.source.now (F.asked files.old) (F.asked files.new)) }
    ensures front { AsksFront (F.told files.old) command.now.source.now (F.asked files.old) (F.asked files.new) }
    ensures read { IsErrOf result Halt.ReadFault → Rose (F.fault_count files.old) (F.fault_count files.new) }
    ensures unread { IsErrOf result Halt.ReadFault → StopsInside (F.told files.old) command.now.source.now F.asked F.fault_count files.old files.new }
    ensures no_write { IsErrOf result Halt.WriteFault → ⊥ }
    ensures later { F.fault_count files.old ≤ F.fault_count files.new }
{
    let given = given_in(alloc, command.words, command.first)?;
    let top = command.top.as_bytes();
    Ok(judge_design(alloc, files, command.source, top, &given)?)
}

/// The same, with the names of the files of the design, where it is accepted.
pub(crate) fn judge_files<F: Files>(
    alloc: Global,
    command: &Command<'_>,
    files: &mut F,
) -> Result<Result<Named, DesignFault>, Halt>
    ensures judged { IfOk result (λ found. IfSome (F.told files.old) (λ told. JudgesFiles told command.now.source.now (command_as command.now).top
        (accepted_in found))) }
    ensures fit { IfOk result (λ found. IsFit (accepted_in found)) }
    ensures names { IfOk result (NamesAccepted (F.told files.old) command.now.source.now) }
    ensures same { F.told files.new ≡ F.told files.old }
    ensures asked { IfOk result (λ found. AsksFiles (F.told files.old) command.now.source.now (F.asked files.old) (F.asked files.new) (accepted_in found)) }
    ensures front { AsksFront (F.told files.old) command.now.source.now (F.asked files.old) (F.asked files.new) }
    ensures read { IsErrOf result Halt.ReadFault → Rose (F.fault_count files.old) (F.fault_count files.new) }
    ensures unread { IsErrOf result Halt.ReadFault → StopsInside (F.told files.old) command.now.source.now F.asked F.fault_count files.old files.new }
    ensures no_write { IsErrOf result Halt.WriteFault → ⊥ }
    ensures later { F.fault_count files.old ≤ F.fault_count files.new }
{
    let given = given_in(alloc, command.words, command.first)?;
    let top = command.top.as_bytes();
    Ok(judge_named(alloc, files, command.source, top, &given)?)
}

/// Reads and judges the stimulus of a command, for these ports.
fn judge_stimulus<F: Files>(
    alloc: Global,
    files: &mut F,
    name: &str,
    ports: &Ports,
) -> Result<Result<Stim, StimFault>, Halt>
    ensures judged { IfOk result (λ found. IfSome (F.told files.old) (λ told. JudgesStimulus (told name.now) ports.now found)) }
    ensures whole { IfOk result (IsWhole ports.now) }
    ensures same { F.told files.new ≡ F.told files.old }
    ensures asked { OnOk result (Appends (F.asked files.old) (F.asked files.new) (name.now ∷ [])) }
    ensures front { AppendsFront (F.asked files.old) (F.asked files.new) (name.now ∷ []) }
    ensures read { IsErrOf result Halt.ReadFault → Rose (F.fault_count files.old) (F.fault_count files.new) }
    ensures unread { IsErrOf result Halt.ReadFault → StopsAt F.asked F.fault_count files.old files.new (name.now ∷ []) }
    ensures no_write { IsErrOf result Halt.WriteFault → ⊥ }
    ensures later { F.fault_count files.old ≤ F.fault_count files.new }
{
    Ok(design_judge::judge_stimulus(alloc, files, name, ports)?)
}

/// Reads the stimulus and the requests of a session over an accepted design, in this order, and judges each.
fn judge_session<F: Files>(
    alloc: Global,
    command: &Command<'_>,
    accepted: Accepted,
    stimulus: &str,
    requests: &str,
    files: &mut F,
) -> Result<Judged, Halt>
    requires task { command.now.task ≡ Session stimulus requests }
    requires kept { IsKept (accepting_of accepted) }
    ensures judged { IfOk result (λ judged. IfSome (F.told files.old) (λ told. HoldsDesign told (command_as command.now) (design_of accepted.design)
        → Judges told (command_as command.now) judged)) }
    ensures text { IfOk result HasText }
    ensures command { IfOk result (λ judged. judged ≡ Judged.NoCommand → ⊥) }
    ensures named { IfOk result (RefusesNamed (Some stimulus.now) (Some requests.now)) }
    ensures same { F.told files.new ≡ F.told files.old }
    ensures asked { IfOk result (λ judged. Appends (F.asked files.old) (F.asked files.new) (asked_behind (Some stimulus.now) (Some requests.now) judged)) }
    ensures front { AppendsFront (F.asked files.old) (F.asked files.new) (stimulus.now ∷ requests.now ∷ []) }
    ensures read { IsErrOf result Halt.ReadFault → Rose (F.fault_count files.old) (F.fault_count files.new) }
    ensures unread { IsErrOf result Halt.ReadFault → StopsAt F.asked F.fault_count files.old files.new (stimulus.now ∷ requests.now ∷ []) }
    ensures no_write { IsErrOf result Halt.WriteFault → ⊥ }
    ensures later { F.fault_count files.old ≤ F.fault_count files.new }
{
    let stim = match judge_stimulus(alloc, files, stimulus, &accepted.ports)? {
        Ok(stim) => stim,
        Err(fault) => return Ok(Judged::NoStimulus(fault)),
    };
    match read_requests(alloc, files, requests)? {
        Some(requests) => Ok(Judged::Session(command.mode, accepted, stim, requests)),
        None => Ok(Judged::NoRequests),
    }
}

/// Reads the files of a command in the order of its words, and judges each.
fn judge_command<F: Files>(
    alloc: Global,
    command: &Command<'_>,
    files: &mut F,
) -> Result<Judged, Halt>
    ensures judged { IfOk result (λ judged. IfSome (F.told files.old) (λ told. Judges told (command_as command.now) judged)) }
    ensures text { IfOk result HasText }
    ensures command { IfOk result (λ judged. judged ≡ Judged.NoCommand → ⊥) }
    ensures named { IfOk result (RefusesOwn (Some (command_as command.now))) }
    ensures same { F.told files.new ≡ F.told files.old }
    ensures asked { IfOk result (AsksFor (F.told files.old) (Some (command_as command.now)) (F.asked files.old) (F.asked files.new)) }
    ensures front { AsksFrontOf (F.told files.old) (Some (command_as command.now)) (F.asked files.old) (F.asked files.new) }
    ensures read { IsErrOf result Halt.ReadFault → Rose (F.fault_count files.old) (F.fault_count files.new) }
    ensures unread { IsErrOf result Halt.ReadFault → StopsInsideOf (F.told files.old)
        (Some (command_as command.now)) F.asked F.fault_count files.old files.new }
    ensures no_write { IsErrOf result Halt.WriteFault → ⊥ }
    ensures later { F.fault_count files.old ≤ F.fault_count files.new }
{
    let accepted = match judge_source(alloc, command, files)? {
        Ok(accepted) => accepted,
        Err(fault) => return Ok(Judged::NoDesign(fault)),
    };
    match command.task {
        Task::Alone(task) => Ok(Judged::Alone(task, command.mode, accepted)),
        Task::Over(task, stimulus) => {
            match judge_stimulus(alloc, files, stimulus, &accepted.ports)? {
                Ok(stim) => Ok(Judged::Over(task, command.mode, accepted, stim)),
                Err(fault) => Ok(Judged::NoStimulus(fault)),
            }
        }
        Task::Session(stimulus, requests) => {
            judge_session(alloc, command, accepted, stimulus, requests, files)
        }
    }
}

/// Judges the words, and the files that they name.
pub(crate) fn judge<F: Files>(alloc: Global, words: &Words, files: &mut F) -> Result<Judged, Halt>
    ensures command { IfOk result (λ judged. (judged ≡ Judged.NoCommand) ↔ (command_of words.now ≡ None)) }
    ensures judged { IfOk result (λ judged. IfAsked (F.told files.old) (command_of words.now) (λ told command. Judges told command judged)) }
    ensures text { IfOk result HasText }
    ensures named { IfOk result (RefusesOwn (command_of words.now)) }
    ensures same { F.told files.new ≡ F.told files.old }
    ensures asked { IfOk result (AsksFor (F.told files.old) (command_of words.now) (F.asked files.old) (F.asked files.new)) }
    ensures front { AsksFrontOf (F.told files.old) (command_of words.now) (F.asked files.old) (F.asked files.new) }
    ensures memory { OnErr result (command_of words.now ≡ None → ⊥) }
    ensures read { IsErrOf result Halt.ReadFault → Rose (F.fault_count files.old) (F.fault_count files.new) }
    ensures unread { IsErrOf result Halt.ReadFault → StopsInsideOf (F.told files.old) (command_of words.now) F.asked F.fault_count files.old files.new }
    ensures no_write { IsErrOf result Halt.WriteFault → ⊥ }
    ensures later { F.fault_count files.old ≤ F.fault_count files.new }
{
    match read_command(words) {
        Some(command) => judge_command(alloc, &command, files),
        None => Ok(Judged::NoCommand),
    }
}
