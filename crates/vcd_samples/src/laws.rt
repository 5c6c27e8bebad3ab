//! What a file tells at the rises of its clock, computed by the definition on a text that was written by hand.

ghost use Rattle.vcd_samples.specs.Example.{IsRead};

/// The samples of a text that was written by hand, by the definition. Computes nothing.
pub fn samples_by_hand()
    ensures { IsRead }
{}
