//! Laws of the stops of a batch.

ghost use Rattle.demo_run.specs.Laws.{StopsAreTold, TwoWaysAreAll};

/// The law that the stops of a batch are those that its lines tell, in their order. Computes nothing.
pub fn stops_are_told()
    ensures { StopsAreTold }
{}

/// The law that as many stops are told as were reached while running forwards and while running backwards. Computes nothing.
pub fn two_ways_are_all()
    ensures { TwoWaysAreAll }
{}
