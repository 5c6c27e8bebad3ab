//! Refusals are deserved: what is typed, named, driven once and assigned in time is not refused for these, and what is accepted is all of them.

ghost use Rattle.check_laws.specs.Accepting.{AcceptedAreAssigned, AcceptedAreDriven, AcceptedAreNamed, AcceptedAreTyped};
ghost use Rattle.check_laws.specs.Assigning.{AlwaysAreNotRefused, FirstAreNotRefused};
ghost use Rattle.check_laws.specs.Driving.{DrivenAreNotRefused, OnceAreNotRefused};
ghost use Rattle.check_laws.specs.Kinds.{VerdictsAreOfTheirKind};
ghost use Rattle.check_laws.specs.Naming.{KnownAreNotRefused};
ghost use Rattle.check_laws.specs.Typing.{TypedAreNotRefused};

/// The fault of a verdict is what the test of its own kind refuses the design for. Computes nothing.
pub fn refusals_are_of_their_kind()
    ensures { VerdictsAreOfTheirKind }
{}

/// A design whose expressions, conditions, literals of arms, assignments, connections and start values are typed is not refused for widths
/// that do not go together. Computes nothing.
pub fn typed_are_not_refused()
    ensures { TypedAreNotRefused }
{}

/// A design in which each name that is read or assigned is declared is not refused for an unknown name. Computes nothing.
pub fn known_names_are_not_refused()
    ensures { KnownAreNotRefused }
{}

/// A design in which no two blocks assign one name and no two connections of a child are to one port is not refused for two drivers;
/// and one in which a block assigns each wire and output is not refused for an undriven signal. Computes nothing.
pub fn driven_once_are_not_refused()
    ensures once { OnceAreNotRefused }
    ensures driven { DrivenAreNotRefused }
{}

/// A design in which each path through a `comb` assigns each bit of each target of it is not refused for a latch; and one in which each path
/// that reads an own name of its block, whole or in part, has assigned each bit of it before is not refused for a read before a write.
/// Computes nothing.
pub fn assigned_in_time_are_not_refused()
    ensures always { AlwaysAreNotRefused }
    ensures first { FirstAreNotRefused }
{}

/// An accepted design is typed, each name that it reads or assigns is declared, its signals are driven once, and each path through a block
/// assigns each bit of its targets, and of its own names before it reads them: so the checks refuse all that is not so. Computes nothing.
pub fn accepted_are_typed()
    ensures typed { AcceptedAreTyped }
    ensures named { AcceptedAreNamed }
    ensures driven { AcceptedAreDriven }
    ensures assigned { AcceptedAreAssigned }
{}
