//! Laws of the judgement and of the lines.

ghost use Rattle.design_judge.specs.Judgement.{FilesHaveOneJudgement, HasOneJudgement, HaveOneJudgement};
ghost use Rattle.design_judge.specs.Laws.{LinesAreSo};

/// The law that the files of a design have one judgement, but that a design with several loops is refused for any of them; and so have
/// a text alone, and sources that were read. Computes nothing.
pub fn sources_have_one_judgement()
    ensures files { FilesHaveOneJudgement }
    ensures text { HasOneJudgement }
    ensures sources { HaveOneJudgement }
{}

/// Lines of refusals, by the definitions. Computes nothing.
pub fn lines_are_so()
    ensures { LinesAreSo }
{}
