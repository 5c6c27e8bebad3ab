//! Writes the text that goes with what was judged.

ghost use Rattle.std.specs.Prelude.{◌≡◌, ◌≤◌, OnOk, OnErr, IsErrOf, length, map};
ghost use Rattle.io_edge.specs.Faults.{Rose};
ghost use Rattle.io_edge.specs.Taken.{Appends, AppendsFront};
ghost use Rattle.design_core.specs.DesignView.{design_of};
ghost use Rattle.design_judge.specs.Accepting.{IsKept, accepting_of};
ghost use Rattle.debug_net.specs.Taken.{TakesSession, TakesSessionFront};
ghost use Rattle.dbg_app.specs.Compiled.{HasNet};
ghost use Rattle.dbg_app.specs.Judged.{HasText, IsCompiled, TakesText, TakesTextFront, TakesWork, TakesWorkFront, WorkStands, alone, over};

use crate::Halt;
use crate::command::{OfDesign, OverRows};
use crate::judge::Judged;
use debug_net::{Script, write_session};
use design_judge::{Accepted, design_line, stimulus_line};
use io_edge::Sink;
use listen::Listener;
use std::alloc::Global;
use stim_text::Stim;
use symbol_net::write_symbols;
use trail_net::write_trail;
use verilog_net::write_verilog;
use wave_net::write_waves;
use world_core::Mode;

/// Writes what is asked of a design alone.
fn write_alone<S: Sink>(
    alloc: Global,
    task: OfDesign,
    mode: Mode,
    accepted: &Accepted,
    out: &mut S,
) -> Result<(), Halt>
    requires { IsKept (accepting_of accepted.now) }
    ensures ok { OnOk result (TakesWork (alone task mode accepted.now) (S.taken out.old) (S.taken out.new)) }
    ensures front { OnErr result (TakesWorkFront (alone task mode accepted.now) (S.taken out.old) (S.taken out.new)) }
    ensures compiled { OnOk result (WorkStands (alone task mode accepted.now)) }
    ensures write { IsErrOf result Halt.WriteFault → Rose (S.fault_count out.old) (S.fault_count out.new) }
    ensures later { S.fault_count out.old ≤ S.fault_count out.new }
    ensures no_read { IsErrOf result Halt.ReadFault → ⊥ }
{
    let Accepted {
        design,
        order,
        ports,
    } = accepted;
    match task {
        OfDesign::Verilog => write_verilog(alloc, design, order, mode, ports, out)?,
        OfDesign::Symbols => write_symbols(alloc, design, order, mode, out)?,
    }
    Ok(())
}

/// Writes what is asked of a design over the rows of a stimulus for its ports.
fn write_over<S: Sink>(
    alloc: Global,
    task: OverRows,
    mode: Mode,
    accepted: &Accepted,
    stim: Stim,
    out: &mut S,
) -> Result<(), Halt>
    requires kept { IsKept (accepting_of accepted.now) }
    requires ports { stim.ports ≡ accepted.now.ports }
    ensures ok { OnOk result (TakesWork (over task mode accepted.now stim) (S.taken out.old) (S.taken out.new)) }
    ensures front { OnErr result (TakesWorkFront (over task mode accepted.now stim) (S.taken out.old) (S.taken out.new)) }
    ensures compiled { OnOk result (WorkStands (over task mode accepted.now stim)) }
    ensures write { IsErrOf result Halt.WriteFault → Rose (S.fault_count out.old) (S.fault_count out.new) }
    ensures later { S.fault_count out.old ≤ S.fault_count out.new }
    ensures no_read { IsErrOf result Halt.ReadFault → ⊥ }
{
    let Accepted { design, order, .. } = accepted;
    match task {
        OverRows::Trail => write_trail(alloc, design, order, mode, stim, out)?,
        OverRows::Waves => write_waves(alloc, design, order, mode, stim, out)?,
    }
    Ok(())
}

/// Writes what a session over a design's run over the rows of a stimulus for its ports puts out for requests.
fn write_asked<S: Sink>(
    alloc: Global,
    mode: Mode,
    accepted: &Accepted,
    stim: Stim,
    requests: &[u8],
    listeners: Vec<Box<dyn Listener>>,
    out: &mut S,
) -> Result<(), Halt>
    requires kept { IsKept (accepting_of accepted.now) }
    requires ports { stim.ports ≡ accepted.now.ports }
    requires few { length listeners.items ≤ 65536 }
    ensures ok { OnOk result (TakesSession (design_of accepted.now.design) (length accepted.now.order) mode stim.rows
        (map (λ b. heard b) listeners.items) requests.now (S.taken out.old) (S.taken out.new)) }
    ensures front { OnErr result (TakesSessionFront (design_of accepted.now.design) (length accepted.now.order) mode stim.rows
        (map (λ b. heard b) listeners.items) requests.now (S.taken out.old) (S.taken out.new)) }
    ensures compiled { OnOk result (HasNet (design_of accepted.now.design) (length accepted.now.order) mode) }
    ensures write { IsErrOf result Halt.WriteFault → Rose (S.fault_count out.old) (S.fault_count out.new) }
    ensures later { S.fault_count out.old ≤ S.fault_count out.new }
    ensures no_read { IsErrOf result Halt.ReadFault → ⊥ }
{
    let Accepted { design, order, .. } = accepted;
    let script = Script { stim, requests };
    write_session(alloc, design, order, mode, script, listeners, out)?;
    Ok(())
}

/// Writes a line.
fn write_line<S: Sink>(line: &[u8], out: &mut S) -> Result<(), Halt>
    ensures ok { OnOk result (Appends (S.taken out.old) (S.taken out.new) line.now) }
    ensures front { OnErr result (AppendsFront (S.taken out.old) (S.taken out.new) line.now) }
    ensures write { IsErrOf result Halt.WriteFault → Rose (S.fault_count out.old) (S.fault_count out.new) }
    ensures later { S.fault_count out.old ≤ S.fault_count out.new }
    ensures no_read { IsErrOf result Halt.ReadFault → ⊥ }
{
    out.put(line)?;
    Ok(())
}

/// Writes the text that goes with what was judged.
pub(crate) fn write<S: Sink>(
    alloc: Global,
    judged: Judged,
    listeners: Vec<Box<dyn Listener>>,
    out: &mut S,
) -> Result<(), Halt>
    requires text { HasText judged }
    requires few { length listeners.items ≤ 65536 }
    ensures ok { OnOk result (TakesText (map (λ b. heard b) listeners.items) judged (S.taken out.old) (S.taken out.new)) }
    ensures front { OnErr result (TakesTextFront (map (λ b. heard b) listeners.items) judged (S.taken out.old) (S.taken out.new)) }
    ensures compiled { OnOk result (IsCompiled judged) }
    ensures write { IsErrOf result Halt.WriteFault → Rose (S.fault_count out.old) (S.fault_count out.new) }
    ensures later { S.fault_count out.old ≤ S.fault_count out.new }
    ensures no_read { IsErrOf result Halt.ReadFault → ⊥ }
{
    match judged {
        Judged::NoCommand => write_line(b"usage fault\n", out),
        Judged::NoDesign(fault) => write_line(&design_line(alloc, &fault)?, out),
        Judged::NoStimulus(fault) => write_line(&stimulus_line(alloc, fault)?, out),
        Judged::NoRequests => write_line(b"requests fault 1 TooLong\n", out),
        Judged::Alone(task, mode, accepted) => write_alone(alloc, task, mode, &accepted, out),
        Judged::Over(task, mode, accepted, stim) => {
            write_over(alloc, task, mode, &accepted, stim, out)
        }
        Judged::Session(mode, accepted, stim, requests) => {
            write_asked(alloc, mode, &accepted, stim, &requests, listeners, out)
        }
    }
}
