//! Laws of the definitions.

ghost use Rattle.hub_net.specs.Sample.{TwoOfThreeAreServed};

/// A service to three clients at once, from the definitions, as it was worked by hand. Computes nothing.
pub fn two_of_three_are_served()
    ensures { TwoOfThreeAreServed }
{}
