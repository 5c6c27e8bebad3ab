//! Reads the files of a replay, and judges them.

ghost use Rattle.std.specs.Prelude.{◌≡◌, ◌≤◌, [], ◌∷◌, IfOk, IfSome, OnOk, IsErrOf};
ghost use Rattle.io_edge.specs.Faults.{Rose};
ghost use Rattle.io_edge.specs.Taken.{Appends, AppendsFront};
ghost use Rattle.io_edge.specs.Unread.{StopsAt};
ghost use Rattle.trace_judge.specs.Judgement.{IsFitTable, IsFitTrace, JudgesBinding, JudgesTable, JudgesTableText, JudgesTrace, JudgesTraceText};

use crate::TraceFault;
use io_edge::{Files, MOST_BYTES, ReadEnd, read_file};
use std::alloc::Global;
use symtab::Table;
use symtab_json::{TableFault, read_table};
use vcd_read::{Vcd, VcdFault, read_vcd};
use vcd_trace::{BindFault, VcdTrace};

/// The table that a text tells, or why it is refused.
#[tactic(auto, using(symtab_json::proofs::Tables::tables_are_told))]
fn table_of(alloc: Global, text: &[u8]) -> Result<Result<Table, TableFault>, text_core::NoMemory>
    ensures judged { IfOk result (JudgesTableText text.now) }
    ensures fit { IfOk result IsFitTable }
{
    match read_table(alloc, text) {
        Ok(table) => Ok(Ok(table)),
        Err(TableFault::NoMemory) => Err(text_core::NoMemory),
        Err(fault) => Ok(Err(fault)),
    }
}

/// Reads the symbol file of this name, and judges it: the table that it tells, or why it is refused. A file of more than 64 MiB is
/// refused as too long. The name is asked for once, unless memory runs out before.
///
/// Errors: `Failed`, where the file was not read; and `NoMemory`.
pub fn judge_table<F: Files>(
    alloc: Global,
    files: &mut F,
    name: &str,
) -> Result<Result<Table, TableFault>, ReadEnd>
    ensures judged { IfOk result (λ found. IfSome (F.told files.old) (λ told. JudgesTable (told name.now) found)) }
    ensures fit { IfOk result IsFitTable }
    ensures same { F.told files.new ≡ F.told files.old }
    ensures asked { OnOk result (Appends (F.asked files.old) (F.asked files.new) (name.now ∷ [])) }
    ensures front { AppendsFront (F.asked files.old) (F.asked files.new) (name.now ∷ []) }
    ensures failed { IsErrOf result ReadEnd.Failed → Rose (F.fault_count files.old) (F.fault_count files.new) }
    ensures unread { IsErrOf result ReadEnd.Failed → StopsAt F.asked F.fault_count files.old files.new (name.now ∷ []) }
    ensures later { F.fault_count files.old ≤ F.fault_count files.new }
{
    match read_file(alloc, files, name, MOST_BYTES)? {
        Some(text) => Ok(table_of(alloc, &text)?),
        None => Ok(Err(TableFault::TooLong)),
    }
}

/// The trace of a table that a file is in a scope, or why it is refused.
fn bound(
    alloc: Global,
    vcd: Vcd,
    table: &Table,
    scope: &str,
) -> Result<Result<VcdTrace, TraceFault>, text_core::NoMemory>
    ensures judged { IfOk result (JudgesBinding vcd table.now scope.now) }
    ensures fit { IfOk result (IsFitTrace table.now) }
{
    match VcdTrace::over(alloc, vcd, table, scope) {
        Ok(trace) => Ok(Ok(trace)),
        Err(BindFault::NoMemory) => Err(text_core::NoMemory),
        Err(fault) => Ok(Err(TraceFault::Bind(fault))),
    }
}

/// The trace of a table that a text is in a scope, or why it is refused.
fn trace_of(
    alloc: Global,
    text: &[u8],
    table: &Table,
    scope: &str,
) -> Result<Result<VcdTrace, TraceFault>, text_core::NoMemory>
    ensures judged { IfOk result (JudgesTraceText text.now table.now scope.now) }
    ensures fit { IfOk result (IsFitTrace table.now) }
{
    match read_vcd(alloc, text) {
        Ok(vcd) => bound(alloc, vcd, table, scope),
        Err(VcdFault::NoMemory) => Err(text_core::NoMemory),
        Err(fault) => Ok(Err(TraceFault::Vcd(fault))),
    }
}

/// Reads the value change dump file of this name, and judges it as the trace of a table in the scope of this path: the trace, or why
/// it is refused. A file of more than 64 MiB is refused as too long. The name is asked for once, unless memory runs out before.
///
/// Errors: `Failed`, where the file was not read; and `NoMemory`.
pub fn judge_trace<F: Files>(
    alloc: Global,
    files: &mut F,
    name: &str,
    table: &Table,
    scope: &str,
) -> Result<Result<VcdTrace, TraceFault>, ReadEnd>
    ensures judged { IfOk result (λ found. IfSome (F.told files.old) (λ told. JudgesTrace (told name.now) table.now scope.now found)) }
    ensures fit { IfOk result (IsFitTrace table.now) }
    ensures same { F.told files.new ≡ F.told files.old }
    ensures asked { OnOk result (Appends (F.asked files.old) (F.asked files.new) (name.now ∷ [])) }
    ensures front { AppendsFront (F.asked files.old) (F.asked files.new) (name.now ∷ []) }
    ensures failed { IsErrOf result ReadEnd.Failed → Rose (F.fault_count files.old) (F.fault_count files.new) }
    ensures unread { IsErrOf result ReadEnd.Failed → StopsAt F.asked F.fault_count files.old files.new (name.now ∷ []) }
    ensures later { F.fault_count files.old ≤ F.fault_count files.new }
{
    match read_file(alloc, files, name, MOST_BYTES)? {
        Some(text) => Ok(trace_of(alloc, &text, table, scope)?),
        None => Ok(Err(TraceFault::Vcd(VcdFault::TooLong))),
    }
}
