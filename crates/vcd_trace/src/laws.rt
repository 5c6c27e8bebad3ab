//! Laws of what a file tells of a table's nodes.

ghost use Rattle.vcd_trace.specs.Alike.{SameNamedTellSame};
ghost use Rattle.vcd_trace.specs.Example.{IsSeen, IsRefusedFor};

/// The law that two traces tell the same world by a table, equal as it is seen, if they have as many cycles and in each the same
/// samples of the nodes that a cell or an enable of the table names. Computes nothing.
pub fn same_named_tell_same()
    ensures { SameNamedTellSame }
{}

/// What a file that was written by hand tells of a table's nodes, and why it is refused for others, by the definitions. Computes
/// nothing.
pub fn samples_by_hand()
    ensures seen { IsSeen }
    ensures refused { IsRefusedFor }
{}
