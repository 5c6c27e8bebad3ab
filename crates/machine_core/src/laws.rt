//! Laws of the machine, over the definitions alone.

ghost use Rattle.machine_core.specs.Laws.{AnswersAlike, RefusedChangeNothing, MovesByTurnsAlone, BatchesEnd, RunsToTheNearest, HaveOneReading, NumbersAreGivenOnce, SearchesJoin, TurnsBySearch};
ghost use Rattle.machine_core.specs.Sample.{table_f_is_debugged};
ghost use Rattle.machine_core.specs.SampleBatch.{batch_a_is_debugged};
ghost use Rattle.machine_core.specs.SampleWatch.{a_wire_is_watched, no_unknown_is_a_change};

/// The law that over worlds that differ in nothing that can be seen every journal has one output, and every batch. Computes
/// nothing.
pub fn same_worlds_answer_alike()
    ensures { AnswersAlike }
{}

/// The law that a refused request leaves the whole state as it was, but for the count of requests. Computes nothing.
pub fn refused_requests_change_nothing()
    ensures { RefusedChangeNothing }
{}

/// The law that a session moves by turns alone, and by no request. Computes nothing.
pub fn moves_by_turns_alone()
    ensures { MovesByTurnsAlone }
{}

/// The law that a batch comes to an end: a session that runs is idle after at most one turn more than there are positions.
/// Computes nothing.
pub fn batches_end()
    ensures { BatchesEnd }
{}

/// The law that a session that runs comes to the nearest of all positions ahead that match, or to the end or the start where none
/// does, however many turns that takes, and that nothing else is told on the way. Computes nothing.
pub fn runs_to_the_nearest()
    ensures { RunsToTheNearest }
{}

/// The law that each text is read as a condition in one way, or stops being one at one place: so there is one reader. Computes
/// nothing.
pub fn texts_have_one_reading()
    ensures { HaveOneReading }
{}

/// The law that over every list of requests and turns no number of a breakpoint is given twice: they are given one after another, from 1 on,
/// an accepted `break` answers the one that was next, and those of the breakpoints that are armed rise and are below the next one. So it is
/// of watches too, which have numbers of their own. Computes nothing.
pub fn numbers_are_given_once()
    ensures { NumbersAreGivenOnce }
{}

/// A session over a small world, from the definitions, as it was worked by hand. Computes nothing.
pub fn table_f_is_debugged()
    ensures { table_f_is_debugged }
{}

/// A batch over the world of a small design, from the definitions, as it was worked by hand: to a breakpoint, a step, what is shown
/// there, and back to the start. Computes nothing.
pub fn batch_a_is_debugged()
    ensures { batch_a_is_debugged }
{}

/// The law that a search for two things finds the nearer of what searches for each of them find; and that a session which runs for breakpoints
/// and watches comes to the nearer of the two. Computes nothing.
pub fn searches_join()
    ensures { SearchesJoin }
{}

/// The law that a turn of the machine does with a session that runs what searches from its place find: one for breakpoints or for a step, and
/// beside that for breakpoints one for watches. Computes nothing.
pub fn turns_by_search()
    ensures { TurnsBySearch }
{}

/// Sessions with watches, from the definitions, as they were worked by hand: of a wire that changes once, and of values of which one is not
/// known. Computes nothing.
pub fn watches_are_debugged()
    ensures wire { a_wire_is_watched }
    ensures unknown { no_unknown_is_a_change }
{}
