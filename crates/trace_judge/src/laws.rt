//! Laws of the judgement and of the lines.

ghost use Rattle.trace_judge.specs.Laws.{LinesAreSo, TextsHaveOneJudgement};

/// The law that a text has one judgement, for a table and a scope. Computes nothing.
pub fn texts_have_one_judgement()
    ensures { TextsHaveOneJudgement }
{}

/// Lines of refusals, by the definitions. Computes nothing.
pub fn lines_are_so()
    ensures { LinesAreSo }
{}
