//! What a service shows to each client, and what a session that a client gets of it is made of.
//!
//! Each session has a table and a trace of its own, made anew of the design and of the rows: a session moves its trace.

ghost use Rattle.std.specs.Prelude.{◌≡◌, IfOk};
ghost use Rattle.trace_world.specs.Fitting.{FitsTable};
ghost use Rattle.sim_hist.specs.Run.{run_samples};
ghost use Rattle.show_net.specs.Over.{Over, Shows};
ghost use Rattle.show_net.specs.Readied.{TellsRuns};

use design_judge::{Accepted, judge_rows};
use design_net::{Compiled, compile};
use sim_hist::SimTrace;
use std::alloc::Global;
use symtab::Table;
use text_core::NoMemory;
use trail_net::trace_of;
use world_core::Mode;

/// An accepted design, which of its names are kept, and the text of a stimulus that is accepted for its ports.
#[derive(Drop)]
pub struct Service {
    pub mode: Mode,
    pub accepted: Accepted,
    pub stimulus: Vec<u8>,
}

/// What a session over a run of a service is made of: a table, and a trace that fits it.
#[derive(Drop)]
pub struct Shown {
    pub table: Table,
    pub trace: SimTrace,
}

/// What a new session over a run of a service is made of. Fails for want of memory alone.
pub fn ready_for(alloc: Global, service: &Service) -> Result<Shown, NoMemory>
    requires shows { (over : Over) × Shows service.now over }
    ensures fits { IfOk result (λ shown. FitsTable shown.table (run_samples shown.trace.net shown.trace.stim)) }
    ensures tells { IfOk result (λ shown. (over : Over) → Shows service.now over → TellsRuns over shown.table (run_samples shown.trace.net shown.trace.stim)) }
{
    let Accepted {
        design,
        order,
        ports,
    } = &service.accepted;
    match judge_rows(alloc, &service.stimulus, ports)? {
        Ok(stim) => {
            let Compiled { net, table } = compile(alloc, design, order, service.mode)?;
            let trace = trace_of(alloc, net, stim)?;
            Ok(Shown { table, trace })
        }
        Err(_) => unreachable!(),
    }
}
