//! Writes the text that goes with what was judged.

ghost use Rattle.std.specs.Prelude.{◌≡◌, ◌≤◌, IfOk, OnOk, OnErr, IsErrOf, length, map};
ghost use Rattle.io_edge.specs.Faults.{Rose};
ghost use Rattle.io_edge.specs.Taken.{Appends, AppendsFront, Grows};
ghost use Rattle.demo_run.specs.Judged.{HasText, IsWalk, IsTheLine, IsTheText, TakesJudged, TakesJudgedFront};

use crate::judge::Judged;
use crate::line::summary_line;
use crate::session::{Script, count_session};
use crate::walk::Walk;
use design_judge::{design_line, stimulus_line};
use io_edge::{Sink, SinkEnd};
use listen::Listener;
use std::alloc::Global;
use text_core::NoMemory;

/// The line of what a session counts.
fn walk_line(
    alloc: Global,
    walk: Walk,
    listeners: Vec<Box<dyn Listener>>,
) -> Result<Vec<u8>, NoMemory>
    requires walk { IsWalk walk }
    requires few { length listeners.items ≤ 65536 }
    ensures { IfOk result (λ line. IsTheLine (map (λ b. heard b) listeners.items) walk line.items) }
{
    let Walk {
        mode,
        number,
        accepted,
        stim,
        requests,
    } = walk;
    let script = Script {
        stim,
        requests: &requests,
    };
    let summary = count_session(
        alloc,
        &accepted.design,
        &accepted.order,
        mode,
        script,
        listeners,
    )?;
    summary_line(alloc, number, summary)
}

/// The text that goes with what was judged.
fn text_of(
    alloc: Global,
    judged: Judged,
    listeners: Vec<Box<dyn Listener>>,
) -> Result<Vec<u8>, NoMemory>
    requires text { HasText judged }
    requires few { length listeners.items ≤ 65536 }
    ensures { IfOk result (λ line. IsTheText (map (λ b. heard b) listeners.items) judged line.items) }
{
    match judged {
        Judged::NoDesign(fault) => design_line(alloc, &fault),
        Judged::NoStimulus(fault) => stimulus_line(alloc, fault),
        Judged::NoRequests => Ok(b"requests fault 1 TooLong\n".to_vec(alloc)?),
        Judged::Walked(walk) => walk_line(alloc, walk, listeners),
    }
}

/// Writes the text that goes with what was judged.
#[tactic(auto, using(io_edge::proofs::Stops::grows_not, io_edge::proofs::Stops::grows_front, io_edge::proofs::Stops::grows_whole))]
pub(crate) fn write<S: Sink>(
    alloc: Global,
    judged: Judged,
    listeners: Vec<Box<dyn Listener>>,
    out: &mut S,
) -> Result<(), SinkEnd>
    requires text { HasText judged }
    requires few { length listeners.items ≤ 65536 }
    ensures ok { OnOk result (TakesJudged (map (λ b. heard b) listeners.items) judged (S.taken out.old) (S.taken out.new)) }
    ensures front { OnErr result (TakesJudgedFront (map (λ b. heard b) listeners.items) judged (S.taken out.old) (S.taken out.new)) }
    ensures failed { IsErrOf result SinkEnd.Failed → Rose (S.fault_count out.old) (S.fault_count out.new) }
    ensures kept { Grows (S.taken out.old) (S.taken out.new) }
    ensures later { S.fault_count out.old ≤ S.fault_count out.new }
{
    let text = text_of(alloc, judged, listeners)?;
    out.put(&text)?;
    Ok(())
}
