//! What holds of samples by their definitions alone, and a counter worked by hand.

ghost use Rattle.sim_hist.specs.Laws.{SamplesHaveWidths};
ghost use Rattle.sim_hist.specs.Sample.{Traces};

/// The law that the samples of a net under a stimulus have the widths of its nodes. Computes nothing.
pub fn samples_have_widths()
    ensures { SamplesHaveWidths }
{}

/// A counter over three rows, by the definitions. Computes nothing.
pub fn traces_by_hand()
    ensures { Traces }
{}
