//! Laws of the definitions.

ghost use Rattle.hub_core.specs.HubJournals.{HubJournalsAreJournals};
ghost use Rattle.hub_core.specs.Sample.{TwoAreServed};

/// A hub's journal is one of the machine, where clients are left out. Computes nothing.
pub fn hub_journals_are_journals()
    ensures { HubJournalsAreJournals }
{}

/// Two clients, from the definitions, as they were worked by hand. Computes nothing.
pub fn two_are_served()
    ensures { TwoAreServed }
{}
