//! The theorems of execution: blocks and their trees agree, drivers have one solution, cycles settle once, runs agree with whole
//! trees.

ghost use Rattle.exec_core.specs.Accepted.{ProcessesChecked};
ghost use Rattle.exec_core.specs.Agree.{BlocksAgree};
ghost use Rattle.exec_core.specs.Cases.{CasesHaveRows, CasesPart, CasesRun};
ghost use Rattle.exec_core.specs.Parts.{PartsReplace};
ghost use Rattle.exec_core.specs.Decided.{Decides, WholeNamesAreEven};
ghost use Rattle.exec_core.specs.Told.{ChecksTell, FormedHaveWidths};
ghost use Rattle.exec_core.specs.Shown.{WholeBlocksAreShown};
ghost use Rattle.exec_core.specs.Total.{PendingIsTotal, WritesShow};
ghost use Rattle.exec_core.specs.WholeNames.{WholeNamesAreFree};
ghost use Rattle.exec_core.specs.Paths.{CheckedTrees};
ghost use Rattle.exec_core.specs.Kept.{DesignWalkKeeps, WalkKeeps};
ghost use Rattle.exec_core.specs.KeptStates.{KeptStatesSuffice};
ghost use Rattle.exec_core.specs.Whole.{OrderSolves};
ghost use Rattle.exec_core.specs.Sample.{BlocksCompute, CaseComputes, CycleComputes, SampleIsAccepted, WholeTreesCompute};
ghost use Rattle.exec_core.specs.States.{CyclesSettle, SettledAgrees, RunsAgree, NodesByNode};

/// The enables of a block's slots tell which are visited, and its trees what each name has there. Computes nothing.
pub fn blocks_agree()
    ensures { BlocksAgree }
{}

/// In a checked block a name has no tree exactly where some path has not assigned it, and each tree has its name's width.
/// Computes nothing.
pub fn blocks_are_checked()
    ensures trees { CheckedTrees }
    ensures processes { ProcessesChecked }
{}

/// A `case` as nested `if`s runs the first arm that has a literal equal to the value, otherwise its default, otherwise nothing; and
/// its paths are those through one arm, or through the default. Its rows go arm by arm. Computes nothing.
pub fn cases_run()
    ensures run { CasesRun }
    ensures paths { CasesPart }
    ensures rows { CasesHaveRows }
{}

/// An assignment to a part replaces its bits and no others. Computes nothing.
pub fn parts_replace()
    ensures { PartsReplace }
{}

/// The paths through a block can be tested. Computes nothing.
pub fn paths_are_decided()
    ensures decides { Decides }
    ensures whole { WholeNamesAreEven }
{}

/// What width a name has that is assigned as a whole alone, as a `let` is, does not matter to the rows of a block and the trees that
/// it ends with. Computes nothing.
pub fn whole_names_are_free()
    ensures { WholeNamesAreFree }
{}

/// A block that assigns no part of a name, and whose own names have some bit, runs on its shown trees alone: its rows and the trees that
/// it ends with are what these give. Computes nothing.
pub fn whole_blocks_are_shown()
    ensures { WholeBlocksAreShown }
{}

/// In a checked block each visited slot has the enable 1, and each name of which every path has assigned all bits has there, and at the
/// end, a tree, whose value it has in execution. Computes nothing.
pub fn checks_tell()
    ensures told { ChecksTell }
    ensures widths { FormedHaveWidths }
{}

/// The pending trees of a checked block need no bits; and a write changes what its key shows. Computes nothing.
pub fn pending_is_total()
    ensures total { PendingIsTotal }
    ensures writes { WritesShow }
{}

/// The equations of all drivers have one solution, in which a tree has its whole tree's value. Computes nothing.
pub fn order_solves()
    ensures { OrderSolves }
{}

/// For all registers and inputs exactly one cycle of an accepted design settles; in it each slot's folded whole enable is 1
/// exactly where execution visits it, and each name has the value of its folded whole tree; and so in each cycle of its run.
/// Computes nothing.
pub fn runs_agree()
    ensures settle { CyclesSettle }
    ensures cycles { SettledAgrees }
    ensures runs { RunsAgree }
{}

/// The folded whole tree of an accepted design goes node by node. Computes nothing.
pub fn nodes_by_node()
    ensures { NodesByNode }
{}

/// The trees that the walk numbers are exactly the least set that is kept, each once; and what kept inputs and registers have
/// is enough for them. Computes nothing.
pub fn kept_trees()
    ensures walk { WalkKeeps }
    ensures design { DesignWalkKeeps }
    ensures states { KeptStatesSuffice }
{}

/// A small design, worked by hand, has the trees, visits, cycle and numbers that the definitions give it, and meets the
/// premises of `runs_agree`. Computes nothing.
pub fn computes_the_samples()
    ensures blocks { BlocksCompute }
    ensures case { CaseComputes }
    ensures cycle { CycleComputes }
    ensures whole_trees { WholeTreesCompute }
    ensures accepted { SampleIsAccepted }
{}
