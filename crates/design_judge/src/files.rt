//! Reads the files of a design, and judges them.

ghost use Rattle.std.specs.Prelude.{◌≡◌, ◌<◌, ◌≤◌, [], ◌∷◌, IfOk, IfSome, OnOk, IsErrOf};
ghost use Rattle.gen_tree.specs.View.{sources_of};
ghost use Rattle.elab_laws.specs.Laws.{AreReadFromTexts};
ghost use Rattle.io_edge.specs.Faults.{Rose};
ghost use Rattle.io_edge.specs.Taken.{Appends, AppendsFront};
ghost use Rattle.io_edge.specs.Unread.{StopsAt};
ghost use Rattle.project_read.specs.Asking.{AsksFront, StopsInside};
ghost use Rattle.design_judge.specs.Naming.{NamesAccepted, accepted_in};
ghost use Rattle.design_judge.specs.Judging.{AsksFiles, IsFit, IsWhole, JudgesFiles, JudgesRows, JudgesSources, JudgesStimulus};

use crate::source::judge_sources;
use crate::{Accepted, DesignFault, Named};
use design_core::Ports;
use gen_elab::Given;
use io_edge::{Files, MOST_BYTES, ReadEnd, read_file};
use project_read::{Project, ProjectEnd, read_named};
use std::alloc::Global;
use stim_text::{Stim, StimFault, read_stim};
use text_core::NoMemory;

/// The design alone of what was judged with the names of its files.
fn accepted_in(found: Result<Named, DesignFault>) -> Result<Accepted, DesignFault>
    ensures { result ≡ accepted_in found }
{
    match found {
        Ok(named) => Ok(named.accepted),
        Err(fault) => Err(fault),
    }
}

/// Judges the sources of files that were read: the design that is accepted, with the names of its files, or why it is refused.
fn judge_project(
    alloc: Global,
    project: Project,
    top: &[u8],
    given: &Given,
) -> Result<Result<Named, DesignFault>, NoMemory>
    requires { AreReadFromTexts (sources_of project.sources.items) }
    ensures judged { IfOk result (λ found. JudgesSources (record { name = top.now; given = given.now }) (sources_of project.sources.items)
        (accepted_in found)) }
    ensures fit { IfOk result (λ found. IsFit (accepted_in found)) }
    ensures names { IfOk result (λ found. IfOk found (λ named. named.names ≡ project.names)) }
{
    let Project { sources, names } = project;
    match judge_sources(alloc, &sources, top, given)? {
        Ok(accepted) => Ok(Ok(Named { accepted, names })),
        Err(fault) => Ok(Err(fault)),
    }
}

/// Reads the files of the design whose source has this name, and judges them from their top, a module's name, with the parameters that
/// are given to it: the design that is accepted, with the names of its files, by their numbers; or why it is refused. A file of more than
/// 1 MiB is refused as too long.
///
/// Errors: `Failed`, where a file was not read; and `NoMemory`.
pub fn judge_named<F: Files>(
    alloc: Global,
    files: &mut F,
    name: &str,
    top: &[u8],
    given: &Given,
) -> Result<Result<Named, DesignFault>, ReadEnd>
    ensures judged { IfOk result (λ found. IfSome (F.told files.old) (λ told. JudgesFiles told name.now (record { name = top.now; given = given.now })
        (accepted_in found))) }
    ensures fit { IfOk result (λ found. IsFit (accepted_in found)) }
    ensures names { IfOk result (NamesAccepted (F.told files.old) name.now) }
    ensures same { F.told files.new ≡ F.told files.old }
    ensures asked { IfOk result (λ found. AsksFiles (F.told files.old) name.now (F.asked files.old) (F.asked files.new) (accepted_in found)) }
    ensures front { AsksFront (F.told files.old) name.now (F.asked files.old) (F.asked files.new) }
    ensures failed { IsErrOf result ReadEnd.Failed → Rose (F.fault_count files.old) (F.fault_count files.new) }
    ensures unread { IsErrOf result ReadEnd.Failed → StopsInside (F.told files.old) name.now F.asked F.fault_count files.old files.new }
    ensures later { F.fault_count files.old ≤ F.fault_count files.new }
{
    match read_named(alloc, files, name) {
        Ok(project) => Ok(judge_project(alloc, project, top, given)?),
        Err(ProjectEnd::Text { file, fault }) => Ok(Err(DesignFault::Text { file, fault })),
        Err(ProjectEnd::TooManyFiles { line, name, .. }) => {
            Ok(Err(DesignFault::TooManyFiles { line, name }))
        }
        Err(ProjectEnd::ReadFault) => Err(ReadEnd::Failed),
        Err(ProjectEnd::NoMemory) => Err(ReadEnd::NoMemory),
    }
}

/// Reads the files of the design whose source has this name, and judges them from their top, a module's name, with the parameters that
/// are given to it: the design that is accepted, or why it is refused. A file of more than 1 MiB is refused as too long.
///
/// Errors: `Failed`, where a file was not read; and `NoMemory`.
pub fn judge_design<F: Files>(
    alloc: Global,
    files: &mut F,
    name: &str,
    top: &[u8],
    given: &Given,
) -> Result<Result<Accepted, DesignFault>, ReadEnd>
    ensures judged { IfOk result (λ found. IfSome (F.told files.old) (λ told. JudgesFiles told name.now (record { name = top.now; given = given.now }) found)) }
    ensures fit { IfOk result IsFit }
    ensures same { F.told files.new ≡ F.told files.old }
    ensures asked { IfOk result (AsksFiles (F.told files.old) name.now (F.asked files.old) (F.asked files.new)) }
    ensures front { AsksFront (F.told files.old) name.now (F.asked files.old) (F.asked files.new) }
    ensures failed { IsErrOf result ReadEnd.Failed → Rose (F.fault_count files.old) (F.fault_count files.new) }
    ensures unread { IsErrOf result ReadEnd.Failed → StopsInside (F.told files.old) name.now F.asked F.fault_count files.old files.new }
    ensures later { F.fault_count files.old ≤ F.fault_count files.new }
{
    match judge_named(alloc, files, name, top, given) {
        Ok(found) => Ok(accepted_in(found)),
        Err(end) => Err(end),
    }
}

/// Judges the text of a stimulus for these ports: the rows that it has, or why it is refused. Fails only where memory runs out.
#[tactic(auto, using(crate::proofs::Stimuli::refused_for))]
pub fn judge_rows(
    alloc: Global,
    text: &[u8],
    ports: &Ports,
) -> Result<Result<Stim, StimFault>, NoMemory>
    ensures rows { IfOk result (JudgesRows text.now ports.now) }
    ensures whole { IfOk result (IsWhole ports.now) }
{
    match read_stim(alloc, text, ports) {
        Ok(stim) => Ok(Ok(stim)),
        Err(StimFault::NoMemory) => Err(NoMemory),
        Err(fault) => Ok(Err(fault)),
    }
}

/// Reads the stimulus of this name, and judges it for these ports: the rows that it has, or why it is refused. A file of more
/// than 64 MiB is refused as too long. The name is asked for once, unless memory runs out before.
///
/// Errors: `Failed`, where the file was not read; and `NoMemory`.
pub fn judge_stimulus<F: Files>(
    alloc: Global,
    files: &mut F,
    name: &str,
    ports: &Ports,
) -> Result<Result<Stim, StimFault>, ReadEnd>
    ensures judged { IfOk result (λ found. IfSome (F.told files.old) (λ told. JudgesStimulus (told name.now) ports.now found)) }
    ensures whole { IfOk result (IsWhole ports.now) }
    ensures same { F.told files.new ≡ F.told files.old }
    ensures asked { OnOk result (Appends (F.asked files.old) (F.asked files.new) (name.now ∷ [])) }
    ensures front { AppendsFront (F.asked files.old) (F.asked files.new) (name.now ∷ []) }
    ensures failed { IsErrOf result ReadEnd.Failed → Rose (F.fault_count files.old) (F.fault_count files.new) }
    ensures unread { IsErrOf result ReadEnd.Failed → StopsAt F.asked F.fault_count files.old files.new (name.now ∷ []) }
    ensures later { F.fault_count files.old ≤ F.fault_count files.new }
{
    match read_file(alloc, files, name, MOST_BYTES)? {
        Some(text) => Ok(judge_rows(alloc, &text, ports)?),
        None => Ok(Err(StimFault::TooLong)),
    }
}
