//! Judges the design and the stimulus of a demo, and reads its requests.

ghost use Rattle.std.specs.Prelude.{◌≡◌, ◌≤◌, ◌<◌, [], ◌∷◌, IfOk, IfSome, OnOk, IsErrOf, IsTrue, length};
ghost use Rattle.std.specs.Option.{option_map};
ghost use Rattle.io_edge.specs.Faults.{Rose};
ghost use Rattle.io_edge.specs.Taken.{Appends, AppendsFront};
ghost use Rattle.io_edge.specs.Unread.{StopsAt};
ghost use Rattle.design_core.specs.DesignView.{design_of};
ghost use Rattle.design_judge.specs.Accepting.{IsKept, accepting_of};
ghost use Rattle.design_judge.specs.Judging.{IsFit, IsWhole, JudgesRows, JudgesText};
ghost use Rattle.demo_run.specs.Chain.{chain_source as the_chain_source, chain_stimulus as the_chain_stimulus, chain_top, row_count};
ghost use Rattle.demo_run.specs.Asked.{HoldsRequests, IsChain, is_status};
ghost use Rattle.demo_run.specs.Judged.{HasText, Judges, asked_for, given_as, judged_status};

use crate::chain::{chain_given, chain_source, chain_stimulus};
use crate::walk::Walk;
use design_judge::{Accepted, DesignFault, judge_rows, judge_text};
use io_edge::{Files, MOST_REQUESTS, ReadEnd, read_file};
use run_status::Ending;
use std::alloc::Global;
use stim_text::{Stim, StimFault};
use text_core::NoMemory;
use world_core::Mode;

/// What a demo is given: which names are kept, how many cells the chain has, from 1 to 4,000, and the name of a file of requests.
#[derive(Clone, Copy)]
pub struct Demo<'a> {
    pub mode: Mode,
    pub number: u16,
    pub requests: &'a str,
}

/// A demo, judged: the design, the stimulus or the requests are refused, or there is what a session walks.
#[derive(Drop)]
pub(crate) enum Judged {
    NoDesign(DesignFault),
    NoStimulus(StimFault),
    /// The requests are too long.
    NoRequests,
    Walked(Walk),
}

impl Judged {
    /// The status of the program, where all of the text is written.
    pub(crate) fn status(&self) -> u8
        ensures status { result ≡ judged_status self.now }
        ensures known { IsTrue (is_status result) }
        ensures early { result < 7 }
    {
        match self {
            Judged::NoDesign(_) => Ending::NoDesign.status(),
            Judged::NoStimulus(_) => Ending::NoStimulus.status(),
            Judged::NoRequests => Ending::NoRequests.status(),
            Judged::Walked(_) => Ending::Written.status(),
        }
    }
}

/// Judges the design of so many cells.
fn judge_chain(alloc: Global, number: u16) -> Result<Result<Accepted, DesignFault>, NoMemory>
    ensures judged { IfOk result (JudgesText (chain_top number) the_chain_source) }
    ensures fit { IfOk result IsFit }
{
    let given = chain_given(alloc, number)?;
    judge_text(alloc, chain_source(), b"Chain", &given)
}

/// Judges its stimulus.
fn judge_chain_rows(alloc: Global, accepted: &Accepted) -> Result<Result<Stim, StimFault>, NoMemory>
    ensures rows { IfOk result (JudgesRows (the_chain_stimulus row_count) accepted.now.ports) }
    ensures whole { IfOk result (IsWhole accepted.now.ports) }
{
    let text = chain_stimulus(alloc)?;
    judge_rows(alloc, &text, &accepted.ports)
}

/// The requests, or None where they are too long, which is more than 16 MiB.
#[tactic(auto, using(crate::proofs::Reading::requests_held))]
fn read_requests<F: Files>(
    alloc: Global,
    demo: &Demo<'_>,
    files: &mut F,
) -> Result<Option<Vec<u8>>, ReadEnd>
    ensures found { IfOk result (λ found. IfSome (F.told files.old)
        (λ told. HoldsRequests told (given_as demo.now) (option_map (λ bytes. bytes.items) found))) }
    ensures short { IfOk result (λ found. IfSome found (λ bytes. length bytes.items ≤ 16777216)) }
    ensures same { F.told files.new ≡ F.told files.old }
    ensures asked { OnOk result (Appends (F.asked files.old) (F.asked files.new) (demo.now.requests.now ∷ [])) }
    ensures front { AppendsFront (F.asked files.old) (F.asked files.new) (demo.now.requests.now ∷ []) }
    ensures failed { IsErrOf result ReadEnd.Failed → Rose (F.fault_count files.old) (F.fault_count files.new) }
    ensures unread { IsErrOf result ReadEnd.Failed → StopsAt F.asked F.fault_count files.old files.new (demo.now.requests.now ∷ []) }
    ensures later { F.fault_count files.old ≤ F.fault_count files.new }
{
    read_file(alloc, files, demo.requests, MOST_REQUESTS)
}

/// Judges the stimulus of a chain, and reads the requests.
fn judge_walk<F: Files>(
    alloc: Global,
    accepted: Accepted,
    demo: &Demo<'_>,
    files: &mut F,
) -> Result<Judged, ReadEnd>
    requires chain { IsChain (given_as demo.now) (design_of accepted.design) }
    requires kept { IsKept (accepting_of accepted) }
    ensures judged { IfOk result (λ judged. IfSome (F.told files.old) (λ told. Judges told (given_as demo.now) judged)) }
    ensures text { IfOk result HasText }
    ensures same { F.told files.new ≡ F.told files.old }
    ensures asked { IfOk result (λ judged. Appends (F.asked files.old) (F.asked files.new) (asked_for (given_as demo.now) judged)) }
    ensures front { AppendsFront (F.asked files.old) (F.asked files.new) (demo.now.requests.now ∷ []) }
    ensures failed { IsErrOf result ReadEnd.Failed → Rose (F.fault_count files.old) (F.fault_count files.new) }
    ensures unread { IsErrOf result ReadEnd.Failed → StopsAt F.asked F.fault_count files.old files.new (demo.now.requests.now ∷ []) }
    ensures later { F.fault_count files.old ≤ F.fault_count files.new }
{
    let stim = match judge_chain_rows(alloc, &accepted)? {
        Ok(stim) => stim,
        Err(fault) => return Ok(Judged::NoStimulus(fault)),
    };
    match read_requests(alloc, demo, files)? {
        Some(requests) => Ok(Judged::Walked(Walk {
            mode: demo.mode,
            number: demo.number,
            accepted,
            stim,
            requests,
        })),
        None => Ok(Judged::NoRequests),
    }
}

/// Judges the design and the stimulus, and reads the requests, in this order.
pub(crate) fn judge<F: Files>(
    alloc: Global,
    demo: &Demo<'_>,
    files: &mut F,
) -> Result<Judged, ReadEnd>
    ensures judged { IfOk result (λ judged. IfSome (F.told files.old) (λ told. Judges told (given_as demo.now) judged)) }
    ensures text { IfOk result HasText }
    ensures same { F.told files.new ≡ F.told files.old }
    ensures asked { IfOk result (λ judged. Appends (F.asked files.old) (F.asked files.new) (asked_for (given_as demo.now) judged)) }
    ensures front { AppendsFront (F.asked files.old) (F.asked files.new) (demo.now.requests.now ∷ []) }
    ensures failed { IsErrOf result ReadEnd.Failed → Rose (F.fault_count files.old) (F.fault_count files.new) }
    ensures unread { IsErrOf result ReadEnd.Failed → StopsAt F.asked F.fault_count files.old files.new (demo.now.requests.now ∷ []) }
    ensures later { F.fault_count files.old ≤ F.fault_count files.new }
{
    match judge_chain(alloc, demo.number)? {
        Ok(accepted) => judge_walk(alloc, accepted, demo, files),
        Err(fault) => Ok(Judged::NoDesign(fault)),
    }
}
