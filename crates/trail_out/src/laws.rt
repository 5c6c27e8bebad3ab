//! What the text of a trail means: the law that joins the rows printed to the world of the debugger.

ghost use Rattle.trail_out.specs.Texts.{TextsAreTrails};

/// The text of a table's rows by the samples of a trace is the trail of the world that they tell. Computes nothing.
pub fn texts_are_trails()
    ensures { TextsAreTrails }
{}
