//! A graph has an order or a cycle, and not both.

ghost use Rattle.graph_order.specs.Cycles.{WalksHaveNoOrder, CyclesHaveNoOrder};
ghost use Rattle.graph_order.specs.Either.{OrderOrCycle};
ghost use Rattle.graph_order.specs.Samples.{ladder_has_an_order, ring_has_a_short_cycle, ring_has_a_long_cycle, loop_is_a_cycle};

/// A graph in which a walk leads from a vertex to itself, as along a cycle, has no order. Computes nothing.
pub fn not_both()
    ensures walks { WalksHaveNoOrder }
    ensures cycles { CyclesHaveNoOrder }
{}

/// Each graph has an order, or a cycle. Computes nothing.
pub fn order_or_loop()
    ensures { OrderOrCycle }
{}

/// Small graphs with their orders and cycles, worked by hand. Computes nothing.
pub fn orders_of_the_samples()
    ensures ladder { ladder_has_an_order }
    ensures short { ring_has_a_short_cycle }
    ensures long { ring_has_a_long_cycle }
    ensures itself { loop_is_a_cycle }
{}
