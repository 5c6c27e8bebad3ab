//! What the printed Verilog of a compiled design means, joined from net to source: the laws of the whole way.

ghost use Rattle.verilog_net.specs.Printing.{CompiledAreKept, DesignsMeanTheirNets};
ghost use Rattle.verilog_net.specs.Cycles.{ModulesComputeSources};
ghost use Rattle.verilog_net.specs.Sample.{design_is_printed};

/// The law that a compiled net is the net of the kept trees: it has the same nodes, by number, the same outputs, and beside each
/// register the same node. Computes nothing.
pub fn compiled_nets_are_kept_nets()
    ensures { CompiledAreKept }
{}

/// The law that what is printed of a compiled design is the text of a module, and that each module of that text means the design's
/// net: values of its names meet the module exactly where they solve the net's equations, and its registers start and step as
/// those of the net. Computes nothing.
pub fn printed_designs_mean_their_nets()
    ensures { DesignsMeanTheirNets }
{}

/// The law that the printed Verilog computes what executing the source gives: in every cycle that has settled, values of the names of
/// a module of that text that meet it give each output the value that it settles to, and each register, by its step, what it holds in
/// the next cycle. Computes nothing.
pub fn modules_compute_sources()
    ensures { ModulesComputeSources }
{}

/// The text of a design of two instances, from the definitions. Computes nothing.
pub fn prints_the_design()
    ensures { design_is_printed }
{}
