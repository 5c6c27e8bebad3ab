//! Counting signals numbers them.

ghost use Rattle.place_core.specs.Numbering.{Numbered};

/// Counting the signals of all instances gives each signal a number and each number its place, in the order of the design.
/// Computes nothing.
pub fn signals_are_numbered()
    ensures { Numbered }
{}
