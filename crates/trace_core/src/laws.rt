//! A trace worked by hand, by the definition of what fits widths.

ghost use Rattle.trace_core.specs.Fitting.{fits_its_widths, no_other_width, no_third_node, no_more_positions};

/// A law: a trace that was made by hand fits its own widths, and no others.
pub fn fits_the_sample()
    ensures widths { fits_its_widths }
    ensures width { no_other_width }
    ensures node { no_third_node }
    ensures positions { no_more_positions }
{}
