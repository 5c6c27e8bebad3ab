//! What an editor looks at where a session stands: its threads, where they are, and what names show there.

ghost use Rattle.std.specs.Prelude.{◌≡◌, Some, None, IfOk, map, option_map, slice_get};
ghost use Rattle.std.specs.List.{list_any};
ghost use Rattle.std.specs.Str.{is_utf8};
ghost use Rattle.symtab_json.specs.Entries.{kept_if};
ghost use Rattle.symtab.specs.Shape.{paths_of};
ghost use Rattle.machine_core.specs.Reading.{Reader, IsReader};
ghost use Rattle.dap_link.specs.Conversation.{asked_so, evaluated, file_name_of, frame_at, frame_if, gens_by, gens_if, gens_told, has_id, is_thread, looked_at, looked_by, path_at, path_named, place_told, scopes_told, stack_by, thread_row, thread_rows, threads_by, variables_of};
ghost use Rattle.dap_link.specs.State.{alone, world_in};
ghost use Rattle.dap_link.specs.Reactions.{led_of};

use crate::asking::{Reacted, ask, failed, quiet, tell, unless_refused};
use dap_text::Payload;
use dbg_core::{Body, Cmd, Session, Utf8};
use places::{file_of, line_in};
use std::alloc::Global;
use symtab::Table;
use text_core::{Listed, NoMemory, Text};
use trace_core::Trace;

/// References up to this are of signals, and those of generator variables lie beyond.
const MOST_SIGNALS: u64 = 8192;

/// The path of an instance, from 0, if there is one.
fn path_bytes(table: &Table, instance: u64) -> Option<&[u8]>
    ensures { option_map (λ path. path.now) result ≡ slice_get (paths_of table.now.instances) instance }
{
    match table.parts().instances.items().get(instance as usize) {
        Some(found) => Some(found.path.bytes()),
        None => None,
    }
}

/// The path of an instance, from 0; no text of one that there is not.
fn path_at(alloc: Global, table: &Table, instance: u64) -> Result<Text, NoMemory>
    ensures { IfOk result (λ path. path ≡ path_at (paths_of table.now.instances) instance) }
{
    match path_bytes(table, instance) {
        Some(path) => Text::new(alloc, path),
        None => Ok(Text::empty(alloc)),
    }
}

/// A text, where bytes are UTF-8.
fn utf8_of(alloc: Global, bytes: &[u8]) -> Result<Option<Utf8>, NoMemory>
    ensures { IfOk result (λ text. text ≡ kept_if is_utf8 (Some bytes.now)) }
{
    match str::from_utf8(bytes) {
        Ok(text) => Ok(Some(Utf8::new(String::from_str(alloc, text)?))),
        Err(_) => Ok(None),
    }
}

/// The path of the instance of a number, from 1, if a request can name it.
fn path_named(alloc: Global, table: &Table, number: u64) -> Result<Option<Utf8>, NoMemory>
    ensures { IfOk result (λ path. path ≡ path_named (paths_of table.now.instances) number) }
{
    if number == 0 {
        return Ok(None);
    }
    match path_bytes(table, number - 1) {
        Some(path) => utf8_of(alloc, path),
        None => Ok(None),
    }
}

/// A thread, with its number, from 1, and its path.
fn thread_row(alloc: Global, table: &Table, instance: u32) -> Result<(u64, Text), NoMemory>
    ensures { IfOk result (λ row. row ≡ thread_row (paths_of table.now.instances) instance) }
{
    let path = path_at(alloc, table, u64::from(instance))?;
    Ok((u64::from(instance) + 1, path))
}

/// Threads, each with its number and its path.
fn thread_rows(alloc: Global, table: &Table, threads: &[u32]) -> Result<Vec<(u64, Text)>, NoMemory>
    ensures { IfOk result (λ rows. rows.items ≡ map (thread_row (paths_of table.now.instances)) threads.now) }
{
    let mut rows = Vec::new(alloc);
    for instance in threads {
        let row = thread_row(alloc, table, *instance)?;
        rows.push(row)?;
    }
    Ok(rows)
}

/// The threads where a session stands, each with its number and its path.
fn rows_now<T: Trace>(alloc: Global, session: &mut Session<T>) -> Result<Vec<(u64, Text)>, NoMemory>
    ensures table { session.new.table ≡ session.old.table }
    ensures samples { T.samples session.new.trace ≡ T.samples session.old.trace }
    ensures state { alone session.new ≡ alone session.old }
    ensures rows { IfOk result (λ rows. rows.items ≡ thread_rows (world_in session.old) (alone session.old)) }
{
    let threads = session.threads()?;
    let rows = thread_rows(alloc, session.table(), &threads)?;
    Ok(rows)
}

/// The threads where a session stands.
pub(crate) fn threads<T: Trace>(
    alloc: Global,
    session: &mut Session<T>,
) -> Result<Reacted, NoMemory>
    ensures table { session.new.table ≡ session.old.table }
    ensures samples { T.samples session.new.trace ≡ T.samples session.old.trace }
    ensures led { IfOk result (λ reacted. (read : Reader) → IsReader read → led_of (alone session.new) reacted
        ≡ threads_by (world_in session.old) (asked_so read (world_in session.old) (alone session.old) Cmd.Threads)) }
{
    tell(alloc, session, Cmd::Threads)?;
    let rows = rows_now(alloc, session)?;
    Ok(quiet(Payload::Threads {
        threads: Listed::new(rows),
    }))
}

/// Whether an instance has this number.
fn has_id(number: u64, instance: u32) -> bool
    ensures { result ≡ has_id number instance }
{
    u64::from(instance) + 1 == number
}

/// Whether one of these has this number.
fn has_thread(threads: &[u32], number: u64) -> bool
    ensures { result ≡ list_any (has_id number) threads.now }
{
    threads.iter().any(|instance| has_id(number, *instance))
}

/// Whether the instance of a number is a thread where a session stands.
fn is_thread<T: Trace>(session: &mut Session<T>, number: u64) -> Result<bool, NoMemory>
    ensures table { session.new.table ≡ session.old.table }
    ensures samples { T.samples session.new.trace ≡ T.samples session.old.trace }
    ensures state { alone session.new ≡ alone session.old }
    ensures is { IfOk result (λ is. is ≡ is_thread (world_in session.old) (alone session.old) number) }
{
    let threads = session.threads()?;
    Ok(has_thread(&threads, number))
}

/// The name of the file of a place; no text of one that there is not.
fn file_name_of(alloc: Global, names: &[Text], place: u32) -> Result<Text, NoMemory>
    ensures { IfOk result (λ name. name ≡ file_name_of names.now place) }
{
    match names.get(file_of(place) as usize) {
        Some(name) => Text::new(alloc, name.bytes()),
        None => Ok(Text::empty(alloc)),
    }
}

/// Where the thread of a number stands: at a place, of these files.
fn frame_at(
    alloc: Global,
    table: &Table,
    names: &[Text],
    number: u64,
    place: u32,
) -> Result<Payload, NoMemory>
    ensures { IfOk result (λ told. told ≡ frame_at (paths_of table.now.instances) names.now number place) }
{
    let name = path_at(alloc, table, number.saturating_sub(1))?;
    let file = file_name_of(alloc, names, place)?;
    Ok(Payload::StackFrame {
        id: number,
        line: line_in(place),
        name,
        file,
    })
}

/// The place that an answer tells.
fn place_told(body: &Body) -> Option<u32>
    ensures { result ≡ place_told body.now }
{
    match body {
        Body::Threads { line, .. } => Some(*line),
        _ => None,
    }
}

/// Where the thread of a number stands, if it is one and a place is told.
fn frame_if(
    alloc: Global,
    table: &Table,
    names: &[Text],
    number: u64,
    is: bool,
    place: Option<u32>,
) -> Result<Payload, NoMemory>
    ensures { IfOk result (λ told. told ≡ frame_if (paths_of table.now.instances) names.now number is place) }
{
    if !is {
        return failed(alloc, "NoStop");
    }
    match place {
        Some(place) => frame_at(alloc, table, names, number, place),
        None => failed(alloc, "NoStop"),
    }
}

/// Where the thread of a number stands, in these files.
pub(crate) fn stack<T: Trace>(
    alloc: Global,
    session: &mut Session<T>,
    names: &[Text],
    number: u64,
) -> Result<Reacted, NoMemory>
    ensures table { session.new.table ≡ session.old.table }
    ensures samples { T.samples session.new.trace ≡ T.samples session.old.trace }
    ensures led { IfOk result (λ reacted. (read : Reader) → IsReader read → led_of (alone session.new) reacted
        ≡ stack_by (world_in session.old) names.now number (asked_so read (world_in session.old) (alone session.old) Cmd.Threads)) }
{
    let body = ask(alloc, session, Cmd::Threads)?;
    let is = is_thread(session, number)?;
    let told = frame_if(alloc, session.table(), names, number, is, place_told(&body))?;
    Ok(quiet(told))
}

/// What the instance of a number has to look into.
fn scopes_told(alloc: Global, table: &Table, number: u64) -> Result<Payload, NoMemory>
    ensures { IfOk result (λ told. told ≡ scopes_told (paths_of table.now.instances) number) }
{
    let count = table.parts().instances.items().len() as u64;
    if number == 0 || number > count {
        return failed(alloc, "NoStop");
    }
    Ok(Payload::Scopes {
        signals: number,
        gens: number + MOST_SIGNALS,
    })
}

/// What the instance of a number has to look into, whatever the session stands at.
pub(crate) fn scopes(alloc: Global, table: &Table, number: u64) -> Result<Reacted, NoMemory>
    ensures { IfOk result (λ reacted. reacted ≡ record { told = scopes_told (paths_of table.now.instances) number; happened = None }) }
{
    let told = scopes_told(alloc, table, number)?;
    Ok(quiet(told))
}

/// What an answer tells of a thread.
fn looked_at(alloc: Global, body: Body) -> Result<Payload, NoMemory>
    ensures { IfOk result (λ told. told ≡ looked_at body) }
{
    match body {
        Body::Values { values } => Ok(Payload::Signals { shown: values }),
        Body::Eval { value } => Ok(Payload::Result { value }),
        other => unless_refused(alloc, &other),
    }
}

/// Asks a session about a thread.
fn look<T: Trace>(alloc: Global, session: &mut Session<T>, cmd: Cmd) -> Result<Reacted, NoMemory>
    ensures table { session.new.table ≡ session.old.table }
    ensures samples { T.samples session.new.trace ≡ T.samples session.old.trace }
    ensures led { IfOk result (λ reacted. (read : Reader) → IsReader read → led_of (alone session.new) reacted
        ≡ looked_by (asked_so read (world_in session.old) (alone session.old) cmd)) }
{
    let body = ask(alloc, session, cmd)?;
    let told = looked_at(alloc, body)?;
    Ok(quiet(told))
}

/// The generator variables that an answer tells.
fn gens_told(body: Body) -> Option<Listed<(Text, i64)>>
    ensures { result ≡ gens_told body }
{
    match body {
        Body::Threads { gens, .. } => Some(gens),
        _ => None,
    }
}

/// What is told of the generator variables of a thread, if it is one.
fn gens_if(alloc: Global, is: bool, gens: Option<Listed<(Text, i64)>>) -> Result<Payload, NoMemory>
    ensures { IfOk result (λ told. told ≡ gens_if is gens) }
{
    match gens {
        Some(gens) if is => Ok(Payload::GenVariables { gens }),
        _ => failed(alloc, "NoStop"),
    }
}

/// The generator variables of the thread of a number.
fn gens<T: Trace>(alloc: Global, session: &mut Session<T>, number: u64) -> Result<Reacted, NoMemory>
    ensures table { session.new.table ≡ session.old.table }
    ensures samples { T.samples session.new.trace ≡ T.samples session.old.trace }
    ensures led { IfOk result (λ reacted. (read : Reader) → IsReader read → led_of (alone session.new) reacted
        ≡ gens_by (world_in session.old) number (asked_so read (world_in session.old) (alone session.old) Cmd.Threads)) }
{
    let body = ask(alloc, session, Cmd::Threads)?;
    let is = is_thread(session, number)?;
    let told = gens_if(alloc, is, gens_told(body))?;
    Ok(quiet(told))
}

/// A command that fails, of a session that it does not reach.
pub(crate) fn fail(alloc: Global, name: &str) -> Result<Reacted, NoMemory>
    ensures { IfOk result (λ reacted. reacted ≡ record { told = Payload.Failed name.now; happened = None }) }
{
    let told = failed(alloc, name)?;
    Ok(quiet(told))
}

/// What the names show that a reference stands for.
pub(crate) fn variables<T: Trace>(
    alloc: Global,
    session: &mut Session<T>,
    reference: u64,
) -> Result<Reacted, NoMemory>
    ensures table { session.new.table ≡ session.old.table }
    ensures samples { T.samples session.new.trace ≡ T.samples session.old.trace }
    ensures led { IfOk result (λ reacted. (read : Reader) → IsReader read → led_of (alone session.new) reacted
        ≡ variables_of read (world_in session.old) (alone session.old) reference) }
{
    if reference > MOST_SIGNALS {
        return gens(alloc, session, reference - MOST_SIGNALS);
    }
    match path_named(alloc, session.table(), reference)? {
        Some(instance) => look(alloc, session, Cmd::Values { instance }),
        None => fail(alloc, "NoStop"),
    }
}

/// A text of its own.
fn own_text(alloc: Global, text: &Utf8) -> Result<Utf8, NoMemory>
    ensures { IfOk result (λ own. own ≡ text.now) }
{
    Ok(Utf8::new(String::from_str(alloc, text.text())?))
}

/// The value of an expression in the instance of a number.
pub(crate) fn evaluate<T: Trace>(
    alloc: Global,
    session: &mut Session<T>,
    expression: &Utf8,
    number: u64,
) -> Result<Reacted, NoMemory>
    ensures table { session.new.table ≡ session.old.table }
    ensures samples { T.samples session.new.trace ≡ T.samples session.old.trace }
    ensures led { IfOk result (λ reacted. (read : Reader) → IsReader read → led_of (alone session.new) reacted
        ≡ evaluated read (world_in session.old) (alone session.old) expression.now number) }
{
    let expr = own_text(alloc, expression)?;
    match path_named(alloc, session.table(), number)? {
        Some(instance) => look(alloc, session, Cmd::Eval { instance, expr }),
        None => fail(alloc, "NoStop"),
    }
}
