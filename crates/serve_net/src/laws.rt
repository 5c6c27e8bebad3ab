//! Laws of the definitions.

ghost use Rattle.serve_net.specs.Sample.{TwoConnectionsAreServed};

/// A service of two connections, from the definitions, as it was worked by hand. Computes nothing.
pub fn two_connections_are_served()
    ensures { TwoConnectionsAreServed }
{}
