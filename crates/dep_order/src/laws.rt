//! What the graph of a design's signals tells of the design: an order or a loop, and never both.

ghost use Rattle.dep_order.specs.Either.{OrderOrLoop};
ghost use Rattle.dep_order.specs.Joined.{CyclesJoin, OrdersJoin};
ghost use Rattle.dep_order.specs.Ordering.{AcceptedAreTrees, CyclesAnswer, OrdersAnswer};
ghost use Rattle.dep_order.specs.Results.{OrdersHaveNoLoop};
ghost use Rattle.dep_order.specs.Samples.{depend_in_a_loop, depends_through_its_test, reaches_through_two_versions, ring_is_a_cycle, output_of_the_child, pairs_of_two_instances};
ghost use Rattle.dep_order.specs.Wiring.{BlockIsProcess, LinkIsMet};

/// What the vertices of a design's signals tell of the signals: an order of them is an order of the driven signals, and a
/// cycle of them is a loop of signals that depend on one another. Computes nothing.
pub fn vertices_are_signals()
    ensures orders { OrdersJoin }
    ensures cycles { CyclesJoin }
{}

/// A link and a block, put behind those before them, drive what the design that has them drives. Computes nothing.
pub fn drivers_in_order()
    ensures links { LinkIsMet }
    ensures blocks { BlockIsProcess }
{}

/// In a graph in which each signal of a design has edges to what drives it, an order of the signals' numbers is an order of the
/// driven signals, and a cycle of them is a loop. Computes nothing.
pub fn numbers_answer()
    ensures orders { OrdersAnswer }
    ensures cycles { CyclesAnswer }
{}

/// In an accepted design a signal to which a link goes or that a block assigns is driven by a tree, and each such tree is one of
/// signals. Computes nothing.
pub fn accepted_drivers()
    ensures { AcceptedAreTrees }
{}

/// A design with an order of its driven signals has no loop. Computes nothing.
pub fn not_both()
    ensures { OrdersHaveNoLoop }
{}

/// The driven signals of an accepted design have an order, or signals of it are a loop. Computes nothing.
pub fn order_or_loop()
    ensures { OrderOrLoop }
{}

/// Small graphs, drivers and a design of two instances, worked by hand. Computes nothing.
pub fn loops_of_the_samples()
    ensures reached { reaches_through_two_versions }
    ensures cycle { ring_is_a_cycle }
    ensures itself { depends_through_its_test }
    ensures others { depend_in_a_loop }
    ensures pairs { pairs_of_two_instances }
    ensures output { output_of_the_child }
{}
