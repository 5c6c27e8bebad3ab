//! What holds of the rows by their definitions alone: a cell is `unset` exactly where some path leaves the name.

ghost use Rattle.row_net.specs.Unset.{UnsetExactly};

/// In an accepted design a name has no tree at a statement exactly where it is unset there, whether it is an own name of the
/// block or another. Computes nothing.
pub fn unset_exactly()
    ensures { UnsetExactly }
{}
