//! Reads the files of a replay in the order of its words, and judges each.

ghost use Rattle.std.specs.Prelude.{◌≡◌, ◌≤◌, ◌<◌, [], ◌∷◌, Ok, IfOk, IfSome, IsErrOf, IsTrue, length};
ghost use Rattle.io_edge.specs.Faults.{Rose};
ghost use Rattle.io_edge.specs.Taken.{Appends, AppendsFront};
ghost use Rattle.io_edge.specs.Unread.{StopsAt};
ghost use Rattle.replay_run.specs.Asked.{names_of, HoldsTable, is_status};
ghost use Rattle.replay_run.specs.Judged.{HasLine, Judges, asked_behind, asked_for, judged_status, names_as};

use crate::walk::Walk;
use io_edge::{Files, MOST_REQUESTS, ReadEnd, read_file};
use run_status::Ending;
use std::alloc::Global;
use symtab::Table;
use symtab_json::TableFault;
use trace_judge::{TraceFault, judge_table, judge_trace};

/// What a replay reads: a symbol file, a value change dump file, the scope of the design in it (the names of the scopes from the
/// outermost on, joined by dots), and a file of requests.
#[derive(Clone, Copy)]
pub struct Replay<'a> {
    pub symbols: &'a str,
    pub dump: &'a str,
    pub scope: &'a str,
    pub requests: &'a str,
}

/// A replay, judged: the symbol file, the dump file or the requests are refused, or there is what a session walks.
#[derive(Drop)]
pub(crate) enum Judged {
    NoTable(TableFault),
    NoTrace(TraceFault),
    /// The requests are too long.
    NoRequests,
    Walked(Walk),
}

impl Judged {
    /// The status of the program, where all of the text is written.
    pub(crate) fn status(&self) -> u8
        ensures status { result ≡ judged_status self.now }
        ensures known { IsTrue (is_status result) }
        ensures early { result < 7 }
    {
        match self {
            Judged::NoTable(_) => Ending::NoTrace.status(),
            Judged::NoTrace(_) => Ending::NoTrace.status(),
            Judged::NoRequests => Ending::NoRequests.status(),
            Judged::Walked(_) => Ending::Written.status(),
        }
    }
}

/// Reads the dump file and the requests, in this order, and judges each.
fn judge_walk<F: Files>(
    alloc: Global,
    table: Table,
    replay: &Replay<'_>,
    files: &mut F,
) -> Result<Judged, ReadEnd>
    ensures judged { IfOk result (λ judged. IfSome (F.told files.old) (λ told. HoldsTable told (names_as replay.now) (Ok table)
        → Judges told (names_as replay.now) judged)) }
    ensures line { IfOk result HasLine }
    ensures same { F.told files.new ≡ F.told files.old }
    ensures asked { IfOk result (λ judged. Appends (F.asked files.old) (F.asked files.new) (asked_behind (names_as replay.now) judged)) }
    ensures front { AppendsFront (F.asked files.old) (F.asked files.new) (replay.now.dump.now ∷ replay.now.requests.now ∷ []) }
    ensures failed { IsErrOf result ReadEnd.Failed → Rose (F.fault_count files.old) (F.fault_count files.new) }
    ensures unread { IsErrOf result ReadEnd.Failed → StopsAt F.asked F.fault_count files.old files.new (replay.now.dump.now ∷ replay.now.requests.now ∷ []) }
    ensures later { F.fault_count files.old ≤ F.fault_count files.new }
{
    let trace = match judge_trace(alloc, files, replay.dump, &table, replay.scope)? {
        Ok(trace) => trace,
        Err(fault) => return Ok(Judged::NoTrace(fault)),
    };
    match read_file(alloc, files, replay.requests, MOST_REQUESTS)? {
        Some(requests) => Ok(Judged::Walked(Walk {
            table,
            trace,
            requests,
        })),
        None => Ok(Judged::NoRequests),
    }
}

/// Reads the symbol file, the dump file and the requests, in this order, and judges each before the next.
pub(crate) fn judge<F: Files>(
    alloc: Global,
    replay: &Replay<'_>,
    files: &mut F,
) -> Result<Judged, ReadEnd>
    ensures judged { IfOk result (λ judged. IfSome (F.told files.old) (λ told. Judges told (names_as replay.now) judged)) }
    ensures line { IfOk result HasLine }
    ensures same { F.told files.new ≡ F.told files.old }
    ensures asked { IfOk result (λ judged. Appends (F.asked files.old) (F.asked files.new) (asked_for (names_as replay.now) judged)) }
    ensures front { AppendsFront (F.asked files.old) (F.asked files.new) (names_of (names_as replay.now)) }
    ensures failed { IsErrOf result ReadEnd.Failed → Rose (F.fault_count files.old) (F.fault_count files.new) }
    ensures unread { IsErrOf result ReadEnd.Failed → StopsAt F.asked F.fault_count files.old files.new (names_of (names_as replay.now)) }
    ensures later { F.fault_count files.old ≤ F.fault_count files.new }
{
    match judge_table(alloc, files, replay.symbols)? {
        Ok(table) => judge_walk(alloc, table, replay, files),
        Err(fault) => Ok(Judged::NoTable(fault)),
    }
}
