//! Stops counted by hand, by the definition of what each kind counts.

ghost use Rattle.listen.specs.Sample.{counts_lines, counts_cycles, counts_toggles, counts_nothing, keeps_the_highest};

/// A law: stops that were counted by hand make of a listener's pairs what the definitions say.
pub fn counts_the_sample()
    ensures lines { counts_lines }
    ensures cycles { counts_cycles }
    ensures toggles { counts_toggles }
    ensures nothing { counts_nothing }
    ensures highest { keeps_the_highest }
{}
