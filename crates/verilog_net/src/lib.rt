//! The Verilog of an accepted design: the text of its compiled net.
//!
//! That net is defined by the trees that are kept, as `kept_net` of `trim_core`.
#![tactic(auto)]

mod laws;
mod write;

pub use io_edge::SinkEnd;
pub use laws::{
    compiled_nets_are_kept_nets, modules_compute_sources, printed_designs_mean_their_nets,
    prints_the_design,
};
pub use write::write_verilog;
