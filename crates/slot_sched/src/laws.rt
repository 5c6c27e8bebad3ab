//! Laws of searches, over the definitions alone.

ghost use Rattle.slot_sched.specs.Sample.{SampleIsSearched};

/// Searches over a table and a trace, from the definitions, as they were worked by hand. Computes nothing.
pub fn sample_is_searched()
    ensures { SampleIsSearched }
{}
