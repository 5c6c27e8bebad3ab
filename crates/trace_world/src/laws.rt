//! What a table and a trace tell, and that it rests on the samples alone.

ghost use Rattle.trace_world.specs.Sample.{sample_is_shown};
ghost use Rattle.trace_world.specs.Fitting.{FittingTracesSample, SameSamplesTellSame};

/// A table of two slots with a trace of two cycles, worked by hand, has the trail that the definitions give it. Computes nothing.
pub fn shows_the_sample()
    ensures { sample_is_shown }
{}

/// A trace that fits a table samples each node that the table names, with the width that the table gives it there. Computes nothing.
pub fn fitting_traces_sample()
    ensures { FittingTracesSample }
{}

/// Traces with the same samples tell the same world by a table that they fit, and it is equal as it is seen. Computes nothing.
pub fn same_samples_tell_same()
    ensures { SameSamplesTellSame }
{}
