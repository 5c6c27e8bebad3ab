//! The laws of the demo's design, of its stimulus, and of what its demos ask for.

ghost use Rattle.chain_laws.specs.Laws.{ChainsAreAccepted, StimuliAreAccepted, RequestsDecide, NoneIsRefused, NoneEndsRefused};

/// The law that the source of the chain is accepted as a design for each number of cells from 1 to 4,000, and the stimulus for the
/// ports of that design. Computes nothing.
pub fn chains_are_accepted()
    ensures design { ChainsAreAccepted }
    ensures stimulus { StimuliAreAccepted }
{}

/// The law that a demo of so many cells asks for status 0 where its requests have at most 16 MiB, for 6 where they have more, and for
/// no other; and that none which ends as its files ask ends with another. Computes nothing.
pub fn requests_decide()
    ensures status { RequestsDecide }
    ensures no_refusal { NoneIsRefused }
    ensures ends { NoneEndsRefused }
{}
