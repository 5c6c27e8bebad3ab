//! What the checks accept meets the premises of the theorem on runs.

ghost use Rattle.check_exec.specs.Orders.{OrdersAreAccepted, OthersAreGiven};
ghost use Rattle.check_exec.specs.Sample.{SampleIsSound};
ghost use Rattle.check_exec.specs.Premises.{AcceptedIsReady, BlocksAreChecked, GivensAreApart, GivensFit, LinksFit, NoLatchIsLeft, OneSource, RunsOfAcceptedAgree, SlotsAreApart};
ghost use Rattle.check_exec.specs.Settling.{CyclesOfAcceptedSettle};

/// In a well-formed design no two statements of an instance have one slot. Computes nothing.
pub fn slots_are_apart()
    ensures { SlotsAreApart }
{}

/// In an accepted design no path of a block leaves a target unassigned. Computes nothing.
pub fn no_latch_is_left()
    ensures { NoLatchIsLeft }
{}

/// In an accepted design the inputs of the top and the registers have widths from 1 to 128, and each register starts with a value
/// of its width. Computes nothing.
pub fn givens_fit()
    ensures { GivensFit }
{}

/// In an accepted design no two of the inputs of the top and the registers have one origin. Computes nothing.
pub fn givens_are_apart()
    ensures { GivensAreApart }
{}

/// In an accepted design a block reads its own names and signals of its instance alone, none of its own where some path has not
/// assigned it; and the widths of its operators, targets and conditions go together. Computes nothing.
pub fn blocks_are_checked()
    ensures { BlocksAreChecked }
{}

/// In an accepted design each connection of a child, and each output of one, goes to a signal, from an expression over signals whose
/// widths go together, of the width of that signal. Computes nothing.
pub fn links_fit()
    ensures { LinksFit }
{}

/// In an accepted design each signal of each instance has one source: a connection or the output of a child, a block that assigns
/// it, or what it is given. Computes nothing.
pub fn one_source_each()
    ensures { OneSource }
{}

/// An accepted design meets the premises of the theorem on runs, for each order of its driven signals. Computes nothing.
pub fn accepted_is_ready()
    ensures { AcceptedIsReady }
{}

/// For rows that give each input of the top a value of its width, an accepted design with an order of its driven signals has one
/// run of its signals, and in each of its cycles each slot's folded whole enable is 1 exactly where execution visits it, and at a
/// visited slot each name that is set by then has the value of its folded whole tree. Computes nothing.
pub fn runs_of_accepted_agree()
    ensures { RunsOfAcceptedAgree }
{}

/// In an accepted design with an order of its driven signals, whatever values of their widths the registers and the inputs of the top
/// have, exactly one environment of the signals has settled. Computes nothing.
pub fn cycles_of_accepted_settle()
    ensures { CyclesOfAcceptedSettle }
{}

/// A design of two instances with a register, worked by hand, is well formed, and no check refuses it. Computes nothing.
pub fn sample_is_sound()
    ensures { SampleIsSound }
{}

/// An order of an accepted design's driven signals meets the premises of the theorem on runs; and the signals that are not driven
/// are the inputs of the top and the registers. Computes nothing.
pub fn orders_are_accepted()
    ensures accepted { OrdersAreAccepted }
    ensures others { OthersAreGiven }
{}
