//! Laws of the world of a run.

ghost use Rattle.world_laws.specs.Laws.{StatementsArePlaced};
ghost use Rattle.world_laws.specs.Values.{SourceHasValues, SourceIsKnown};

/// The statements of a well-formed design stand in the order of their slots. Computes nothing.
pub fn statements_are_placed()
    ensures { StatementsArePlaced }
{}

/// In every run of an accepted design each name in scope at a thread of a statement, whose status tells a width, has a value of this
/// width there; so nothing is unknown in the world of the run. Computes nothing.
pub fn names_have_values()
    ensures values { SourceHasValues }
    ensures known { SourceIsKnown }
{}
