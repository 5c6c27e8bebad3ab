//! What a session walks, where all files of a replay are accepted.

ghost use Rattle.trace_world.specs.Fitting.{FitsTable};
ghost use Rattle.vcd_trace.specs.Kept.{samples_of};

use symtab::Table;
use vcd_trace::VcdTrace;

/// A table and a trace that fits it, and the requests.
#[derive(Drop)]
pub(crate) struct Walk {
    pub(crate) table: Table,
    pub(crate) trace: VcdTrace,
    pub(crate) requests: Vec<u8>,
    pub ghost fits: { FitsTable table (samples_of trace) },
}
