//! What holds of nets by their definitions alone: the equations have one solution.

ghost use Rattle.net_core.specs.Nets.{NetsHaveOneSolution};

/// The law that a net, as a system of equations, has exactly one solution under all inputs and registers: the values of
/// its nodes' trees. Computes nothing.
pub fn one_solution()
    ensures { NetsHaveOneSolution }
{}
