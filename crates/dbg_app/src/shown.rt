//! Judges the files of a service.
//!
//! The text of the stimulus is kept: each session reads its rows anew.

ghost use Rattle.std.specs.Prelude.{◌≡◌, ◌≤◌, [], ◌∷◌, Some, None, IfOk, IfSome, OnOk, IsErrOf, map, string_bytes};
ghost use Rattle.io_edge.specs.Faults.{Rose};
ghost use Rattle.io_edge.specs.Taken.{Appends, AppendsFront};
ghost use Rattle.io_edge.specs.Unread.{StopsAt};
ghost use Rattle.design_core.specs.DesignView.{design_of};
ghost use Rattle.design_judge.specs.Accepting.{IsKept, accepting_of};
ghost use Rattle.dbg_app.specs.Asked.{command_as, requests_as, stimulus_as};
ghost use Rattle.dbg_app.specs.Names.{AsksFrontOf, StopsInsideOf};
ghost use Rattle.dbg_app.specs.Answers.{HoldsDesign};
ghost use Rattle.dbg_app.specs.Dap.{NamesShown};
ghost use Rattle.dbg_app.specs.Serving.{AreRows, FindsRows, IsShown, JudgesOffer, AsksShown, asked_show};

use crate::Halt;
use crate::command::Command;
use crate::judge::{Judged, judge_files};
use design_core::Ports;
use design_judge::{Accepted, Named, judge_rows};
use io_edge::{Files, MOST_BYTES, read_file};
use show_net::Service;
use std::alloc::Global;
use stim_text::StimFault;

/// The files of a service, judged: the source or the stimulus is refused, or there is what it shows.
#[derive(Drop)]
pub(crate) enum Shown {
    Refused(Judged),
    Accepted(Service),
}

/// Reads the stimulus of this name, and judges it for these ports: its text, where it is accepted, or why it is refused.
fn read_rows<F: Files>(
    alloc: Global,
    files: &mut F,
    name: &str,
    ports: &Ports,
) -> Result<Result<Vec<u8>, StimFault>, Halt>
    ensures found { IfOk result (λ found. IfSome (F.told files.old) (λ told. FindsRows (told name.now) ports.now found)) }
    ensures rows { IfOk result (AreRows ports.now) }
    ensures same { F.told files.new ≡ F.told files.old }
    ensures asked { OnOk result (Appends (F.asked files.old) (F.asked files.new) (name.now ∷ [])) }
    ensures front { AppendsFront (F.asked files.old) (F.asked files.new) (name.now ∷ []) }
    ensures read { IsErrOf result Halt.ReadFault → Rose (F.fault_count files.old) (F.fault_count files.new) }
    ensures unread { IsErrOf result Halt.ReadFault → StopsAt F.asked F.fault_count files.old files.new (name.now ∷ []) }
    ensures no_write { IsErrOf result Halt.WriteFault → ⊥ }
    ensures later { F.fault_count files.old ≤ F.fault_count files.new }
{
    let text = match read_file(alloc, files, name, MOST_BYTES)? {
        Some(text) => text,
        None => return Ok(Err(StimFault::TooLong)),
    };
    match judge_rows(alloc, &text, ports)? {
        Ok(_) => Ok(Ok(text)),
        Err(fault) => Ok(Err(fault)),
    }
}

/// Reads the stimulus of a service, and judges it for a design that is accepted.
fn show<F: Files>(
    alloc: Global,
    command: &Command<'_>,
    stimulus: &str,
    accepted: Accepted,
    files: &mut F,
) -> Result<Shown, Halt>
    requires stimulus { stimulus_as command.now.task ≡ Some stimulus.now }
    requires kept { IsKept (accepting_of accepted) }
    ensures judged { IfOk result (λ shown. IfSome (F.told files.old) (λ told. HoldsDesign told (command_as command.now) (design_of accepted.design)
        → JudgesOffer told (command_as command.now) shown)) }
    ensures shown { IfOk result IsShown }
    ensures same { F.told files.new ≡ F.told files.old }
    ensures asked { IfOk result (λ shown. Appends (F.asked files.old) (F.asked files.new) (asked_show stimulus.now shown)) }
    ensures front { AppendsFront (F.asked files.old) (F.asked files.new) (stimulus.now ∷ []) }
    ensures read { IsErrOf result Halt.ReadFault → Rose (F.fault_count files.old) (F.fault_count files.new) }
    ensures unread { IsErrOf result Halt.ReadFault → StopsAt F.asked F.fault_count files.old files.new (stimulus.now ∷ []) }
    ensures no_write { IsErrOf result Halt.WriteFault → ⊥ }
    ensures later { F.fault_count files.old ≤ F.fault_count files.new }
{
    match read_rows(alloc, files, stimulus, &accepted.ports)? {
        Ok(stimulus) => Ok(Shown::Accepted(Service {
            mode: command.mode,
            accepted,
            stimulus,
        })),
        Err(fault) => Ok(Shown::Refused(Judged::NoStimulus(fault))),
    }
}

/// Reads the source of a service, the files that it imports, and the stimulus, in this order, and judges each before the next is read. What
/// is accepted has the names of the files of its design, by their numbers.
pub(crate) fn judge_named<F: Files>(
    alloc: Global,
    command: &Command<'_>,
    stimulus: &str,
    files: &mut F,
) -> Result<(Shown, Vec<String>), Halt>
    requires stimulus { stimulus_as command.now.task ≡ Some stimulus.now }
    requires bare { requests_as command.now.task ≡ None }
    ensures judged { IfOk result (λ found. IfSome (F.told files.old) (λ told. JudgesOffer told (command_as command.now) found.0)) }
    ensures shown { IfOk result (λ found. IsShown found.0) }
    ensures names { IfOk result (λ found. NamesShown (F.told files.old) command.now.source.now found.0 (map (λ name. string_bytes name) found.1.items)) }
    ensures same { F.told files.new ≡ F.told files.old }
    ensures asked { IfOk result (λ found. AsksShown (F.told files.old) (command_as command.now) (F.asked files.old) (F.asked files.new) found.0) }
    ensures front { AsksFrontOf (F.told files.old) (Some (command_as command.now)) (F.asked files.old) (F.asked files.new) }
    ensures read { IsErrOf result Halt.ReadFault → Rose (F.fault_count files.old) (F.fault_count files.new) }
    ensures unread { IsErrOf result Halt.ReadFault → StopsInsideOf (F.told files.old)
        (Some (command_as command.now)) F.asked F.fault_count files.old files.new }
    ensures no_write { IsErrOf result Halt.WriteFault → ⊥ }
    ensures later { F.fault_count files.old ≤ F.fault_count files.new }
{
    match judge_files(alloc, command, files)? {
        Ok(Named { accepted, names }) => {
            let shown = show(alloc, command, stimulus, accepted, files)?;
            Ok((shown, names))
        }
        Err(fault) => Ok((Shown::Refused(Judged::NoDesign(fault)), Vec::new(alloc))),
    }
}

/// The same, without the names.
pub(crate) fn judge_shown<F: Files>(
    alloc: Global,
    command: &Command<'_>,
    stimulus: &str,
    files: &mut F,
) -> Result<Shown, Halt>
    requires stimulus { stimulus_as command.now.task ≡ Some stimulus.now }
    requires bare { requests_as command.now.task ≡ None }
    ensures judged { IfOk result (λ shown. IfSome (F.told files.old) (λ told. JudgesOffer told (command_as command.now) shown)) }
    ensures shown { IfOk result IsShown }
    ensures same { F.told files.new ≡ F.told files.old }
    ensures asked { IfOk result (AsksShown (F.told files.old) (command_as command.now) (F.asked files.old) (F.asked files.new)) }
    ensures front { AsksFrontOf (F.told files.old) (Some (command_as command.now)) (F.asked files.old) (F.asked files.new) }
    ensures read { IsErrOf result Halt.ReadFault → Rose (F.fault_count files.old) (F.fault_count files.new) }
    ensures unread { IsErrOf result Halt.ReadFault → StopsInsideOf (F.told files.old)
        (Some (command_as command.now)) F.asked F.fault_count files.old files.new }
    ensures no_write { IsErrOf result Halt.WriteFault → ⊥ }
    ensures later { F.fault_count files.old ≤ F.fault_count files.new }
{
    let (shown, _) = judge_named(alloc, command, stimulus, files)?;
    Ok(shown)
}
