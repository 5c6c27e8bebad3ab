//! What holds of a cycle and of a clock edge by their definitions alone, and a counter worked by hand.

ghost use Rattle.sim_core.specs.Laws.{AnyCanBeGiven, WidthsAreGiven, NodesHaveWidths, RegistersTakeNextValues};
ghost use Rattle.sim_core.specs.Sample.{Counts};

/// The laws of what inputs and registers are given, and of a clock edge. Computes nothing.
pub fn values_are_given()
    ensures any { AnyCanBeGiven }
    ensures widths { WidthsAreGiven }
    ensures nodes { NodesHaveWidths }
    ensures edge { RegistersTakeNextValues }
{}

/// A counter, by the definitions. Computes nothing.
pub fn counts_by_hand()
    ensures { Counts }
{}
