//! What a compiled design shows of a run is what execution has.

ghost use Rattle.trim_laws.specs.Runs.{DesignsRun};
ghost use Rattle.trim_laws.specs.Shown.{TraceIsKnown};
ghost use Rattle.trim_laws.specs.Worlds.{WorldsAreSame, WorldsAreSeenAlike};
ghost use Rattle.trim_laws.specs.Simulated.{SimulatedAreRuns};
ghost use Rattle.trim_laws.specs.Fitted.{SimulatedFit, SimulatedAreKnown};

/// An accepted design with an order has a run over every stimulus for its inputs. Computes nothing.
pub fn accepted_designs_run()
    ensures { DesignsRun }
{}

/// The world that a compiled design tells by its table and the samples of its net is the world of its run: they differ in nothing that
/// can be seen, and are equal as they are seen. Computes nothing.
pub fn worlds_are_same()
    ensures same { WorldsAreSame }
    ensures alike { WorldsAreSeenAlike }
{}

/// Simulating a compiled design over the rows of a stimulus samples its run: each node has in each cycle the value of its tree, where
/// inputs have what the row gives them and registers what the run gives them. Computes nothing.
pub fn simulated_are_runs()
    ensures { SimulatedAreRuns }
{}

/// The simulated trace of a compiled design fits its symbol table, and each node of the table is known in each cycle, with its
/// width. Computes nothing.
pub fn simulated_traces_fit()
    ensures fit { SimulatedFit }
    ensures known { SimulatedAreKnown }
{}

/// In the world that a compiled design tells by its table and the samples of its net no name that is shown is unknown. Computes nothing.
pub fn nothing_is_unknown()
    ensures { TraceIsKnown }
{}
