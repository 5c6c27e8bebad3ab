//! What the definitions give for samples that were worked by hand.

ghost use Rattle.hand_samples.specs.Defaults.{DefaultsAreSeen};
ghost use Rattle.hand_samples.specs.Stimuli.{StimuliAreRead, StimuliAreRefused};
ghost use Rattle.hand_samples.specs.Dumps.{DumpIsRead, DumpsAreRefused};
ghost use Rattle.hand_samples.specs.Removed.{IsKeptByHand, IsTrailByHand, RunsByHand};
ghost use Rattle.hand_samples.specs.Cases.{CasesRunByHand, IsCasesTrailByHand, IsElaboratedByHand};

/// Parameters of instances: defaults that name an earlier parameter, arguments computed where the `inst` stands. The walk
/// and substitution both give them, and both refuse a default that names a later parameter and an argument that names one of the
/// child's. Computes nothing.
pub fn parameters_by_hand()
    ensures { DefaultsAreSeen }
{}

/// A stimulus with each form of number has these rows, and each kind of fault refuses one. Computes nothing.
pub fn stimuli_by_hand()
    ensures read { StimuliAreRead }
    ensures refused { StimuliAreRefused }
{}

/// A value change dump file with commands among its changes, values passed over, a code of two variables and a scope that
/// is opened again tells this; and others are refused. Computes nothing.
pub fn dumps_by_hand()
    ensures read { DumpIsRead }
    ensures refused { DumpsAreRefused }
{}

/// A design with a name, a register and a constant that no output needs: what is kept of it and its trail, in both modes, over a
/// run of two cycles. Computes nothing.
pub fn keeps_by_hand()
    ensures kept { IsKeptByHand }
    ensures runs { RunsByHand }
    ensures trail { IsTrailByHand }
{}

/// A `case` whose arms assign a part of a signal: the design that its source is elaborated to, a run of two cycles, which an
/// arm of two literals and the default take, and their trail in both modes. Computes nothing.
pub fn cases_by_hand()
    ensures elaborated { IsElaboratedByHand }
    ensures runs { CasesRunByHand }
    ensures trail { IsCasesTrailByHand }
{}
