//! The breakpoints that an editor sets: those of a file are replaced as one.

ghost use Rattle.std.specs.Prelude.{◌≡◌, ◌≤◌, Some, None, IfOk, OnOk, bytes_eq, codes, filter, length, map, unwrap_or};
ghost use Rattle.std.specs.List.{position, suffix_len};
ghost use Rattle.places.specs.Places.{place};
ghost use Rattle.machine_core.specs.Machine.{Machine};
ghost use Rattle.machine_core.specs.Reading.{Reader, IsReader};
ghost use Rattle.dap_link.specs.Conversation.{asked_so, delete_each, deleted_if, file_named, is_elsewhere, is_in_file, is_no_slash, last_part, line_told, no_file, refusal_name, set_each, set_in, set_line, setting};
ghost use Rattle.dap_link.specs.State.{alone, world_in};

use crate::asking::{ask, refusal_name, tell};
use dap_text::{LineAsked, LineSet};
use dbg_core::{Body, Cmd, Session, Utf8};
use places::FILES_MAX;
use std::alloc::Global;
use text_core::{NoMemory, Text};
use trace_core::Trace;

/// The places that each file has: 2^24.
const LINES: u64 = 1 << 24;

/// Whether a byte is none of a slash.
fn is_no_slash(byte: u8) -> bool
    ensures { result ≡ is_no_slash byte }
{
    byte != b'/'
}

/// How many bytes stand behind the last slash.
pub(crate) fn last_len(path: &[u8]) -> usize
    ensures len { result ≡ suffix_len is_no_slash path.now }
    ensures within { result ≤ length path.now }
{
    path.iter()
        .rev()
        .take_while(|byte| is_no_slash(**byte))
        .count()
}

/// What stands behind the last slash.
fn last_part(path: &[u8]) -> &[u8]
    ensures { result.now ≡ last_part path.now }
{
    let (_, part) = path.split_at(path.len() - last_len(path));
    part
}

/// The number of the first name that is this one.
fn place_among(names: &[Text], part: &[u8]) -> Option<usize>
    ensures { result ≡ position (bytes_eq part.now) names.now }
{
    names.iter().position(|name| part == name.bytes())
}

/// The number of the file that a path names.
fn file_named(names: &[Text], path: &[u8]) -> Option<u32>
    ensures { result ≡ file_named names.now path.now }
{
    match place_among(names, last_part(path)) {
        Some(file) if file < FILES_MAX as usize => Some(file as u32),
        _ => None,
    }
}

/// Whether a breakpoint that was set is in a file.
fn is_in_file(file: u32, b: (u32, u64)) -> bool
    ensures { result ≡ is_in_file file b }
{
    b.0 == file
}

/// Deletes a breakpoint, if it is in a file.
fn delete_if<T: Trace>(
    alloc: Global,
    session: &mut Session<T>,
    is: bool,
    bp: u64,
) -> Result<(), NoMemory>
    ensures table { session.new.table ≡ session.old.table }
    ensures samples { T.samples session.new.trace ≡ T.samples session.old.trace }
    ensures left { OnOk result ((read : Reader) → IsReader read → alone session.new
        ≡ deleted_if is read (world_in session.old) bp (alone session.old)) }
{
    if is {
        tell(alloc, session, Cmd::Delete { bp })?;
    }
    Ok(())
}

/// Deletes those that were set in a file, in the order in which they were set.
fn delete_each<T: Trace>(
    alloc: Global,
    session: &mut Session<T>,
    file: u32,
    set: &[(u32, u64)],
) -> Result<(), NoMemory>
    ensures table { session.new.table ≡ session.old.table }
    ensures samples { T.samples session.new.trace ≡ T.samples session.old.trace }
    ensures left { OnOk result ((read : Reader) → IsReader read → alone session.new
        ≡ delete_each read (world_in session.old) file set.now (alone session.old)) }
{
    for b in set {
        delete_if(alloc, session, is_in_file(file, *b), b.1)?;
    }
    Ok(())
}

/// Whether a breakpoint that was set is in another file.
fn is_elsewhere(file: u32, b: (u32, u64)) -> bool
    ensures { result ≡ is_elsewhere file b }
{
    !is_in_file(file, b)
}

/// Those that were set in other files.
fn others(alloc: Global, file: u32, set: &[(u32, u64)]) -> Result<Vec<(u32, u64)>, NoMemory>
    ensures { IfOk result (λ kept. kept.items ≡ filter (is_elsewhere file) set.now) }
{
    let mut kept = Vec::new(alloc);
    for b in set {
        if is_elsewhere(file, *b) {
            kept.push(*b)?;
        }
    }
    Ok(kept)
}

/// A text of its own, if there is one.
fn copy_of(alloc: Global, text: &Option<Utf8>) -> Result<Option<Utf8>, NoMemory>
    ensures { IfOk result (λ copy. copy ≡ text.now) }
{
    match text {
        Some(text) => Ok(Some(Utf8::new(String::from_str(alloc, text.text())?))),
        None => Ok(None),
    }
}

/// The place of a line in a file.
fn place_of(file: u32, line: u32) -> u64
    ensures { result ≡ place file line }
{
    u64::from(file) * LINES + u64::from(line)
}

/// Asks a session for a breakpoint on a line of a file.
fn ask_line<T: Trace>(
    alloc: Global,
    session: &mut Session<T>,
    file: u32,
    asked: &LineAsked,
) -> Result<Body, NoMemory>
    ensures table { session.new.table ≡ session.old.table }
    ensures samples { T.samples session.new.trace ≡ T.samples session.old.trace }
    ensures told { IfOk result (λ body. (read : Reader) → IsReader read → (alone session.new, body)
        ≡ asked_so read (world_in session.old) (alone session.old) (Cmd.Break (place file asked.now.line) None asked.now.condition)) }
{
    let cond = copy_of(alloc, &asked.condition)?;
    let cmd = Cmd::Break {
        line: place_of(file, asked.line),
        instance: None,
        cond,
    };
    ask(alloc, session, cmd)
}

/// The name of a refusal; no text of what was granted.
fn name_or_none(alloc: Global, body: &Body) -> Result<Text, NoMemory>
    ensures { IfOk result (λ name. name ≡ unwrap_or (refusal_name body.now) (codes "")) }
{
    match refusal_name(alloc, body)? {
        Some(name) => Ok(name),
        None => Ok(Text::empty(alloc)),
    }
}

/// Notes what became of a line.
fn put_line(
    alloc: Global,
    file: u32,
    line: u32,
    body: &Body,
    set: &mut Vec<(u32, u64)>,
    lines: &mut Vec<LineSet>,
) -> Result<(), NoMemory>
    ensures { OnOk result ((m : Machine) → setting m set.new.items lines.new.items ≡ line_told file line m set.old.items lines.old.items body.now) }
{
    match body {
        Body::Break { bp, .. } => {
            set.push((file, *bp))?;
            lines.push(LineSet::Verified { id: *bp, line })?;
            Ok(())
        }
        other => {
            let name = name_or_none(alloc, other)?;
            lines.push(LineSet::Unverified { line, name })?;
            Ok(())
        }
    }
}

/// Sets a breakpoint on a line of a file, and notes what became of it.
fn set_line<T: Trace>(
    alloc: Global,
    session: &mut Session<T>,
    file: u32,
    asked: &LineAsked,
    set: &mut Vec<(u32, u64)>,
    lines: &mut Vec<LineSet>,
) -> Result<(), NoMemory>
    ensures table { session.new.table ≡ session.old.table }
    ensures samples { T.samples session.new.trace ≡ T.samples session.old.trace }
    ensures left { OnOk result ((read : Reader) → IsReader read → setting (alone session.new) set.new.items lines.new.items
        ≡ set_line read (world_in session.old) file asked.now (setting (alone session.old) set.old.items lines.old.items)) }
{
    let body = ask_line(alloc, session, file, asked)?;
    put_line(alloc, file, asked.line, &body, set, lines)?;
    Ok(())
}

/// Sets breakpoints on lines of a file, in order.
fn set_each<T: Trace>(
    alloc: Global,
    session: &mut Session<T>,
    file: u32,
    asked: &[LineAsked],
    set: &mut Vec<(u32, u64)>,
    lines: &mut Vec<LineSet>,
) -> Result<(), NoMemory>
    ensures table { session.new.table ≡ session.old.table }
    ensures samples { T.samples session.new.trace ≡ T.samples session.old.trace }
    ensures left { OnOk result ((read : Reader) → IsReader read → setting (alone session.new) set.new.items lines.new.items
        ≡ set_each read (world_in session.old) file asked.now (setting (alone session.old) set.old.items lines.old.items)) }
{
    for one in asked {
        set_line(alloc, session, file, one, set, lines)?;
    }
    Ok(())
}

/// Replaces the breakpoints of a file.
fn set_file<T: Trace>(
    alloc: Global,
    session: &mut Session<T>,
    file: u32,
    asked: &[LineAsked],
    set: &mut Vec<(u32, u64)>,
) -> Result<Vec<LineSet>, NoMemory>
    ensures table { session.new.table ≡ session.old.table }
    ensures samples { T.samples session.new.trace ≡ T.samples session.old.trace }
    ensures left { IfOk result (λ lines. (read : Reader) → IsReader read → setting (alone session.new) set.new.items lines.items
        ≡ set_in read (world_in session.old) (alone session.old) set.old.items (Some file) asked.now) }
{
    delete_each(alloc, session, file, set)?;
    *set = others(alloc, file, set)?;
    let mut lines = Vec::new(alloc);
    set_each(alloc, session, file, asked, set, &mut lines)?;
    Ok(lines)
}

/// What becomes of a line of a name of no file.
fn no_file(alloc: Global, asked: &LineAsked) -> Result<LineSet, NoMemory>
    ensures { IfOk result (λ line. line ≡ no_file asked.now) }
{
    let name = Text::new(alloc, b"NoFile")?;
    Ok(LineSet::Unverified {
        line: asked.line,
        name,
    })
}

/// What becomes of the lines of a name of no file.
fn no_files(alloc: Global, asked: &[LineAsked]) -> Result<Vec<LineSet>, NoMemory>
    ensures { IfOk result (λ lines. lines.items ≡ map no_file asked.now) }
{
    let mut lines = Vec::new(alloc);
    for one in asked {
        let line = no_file(alloc, one)?;
        lines.push(line)?;
    }
    Ok(lines)
}

/// Replaces the breakpoints of the file that a path names, of these files; and tells what became of each line.
pub(crate) fn set_breakpoints<T: Trace>(
    alloc: Global,
    session: &mut Session<T>,
    names: &[Text],
    path: &[u8],
    asked: &[LineAsked],
    set: &mut Vec<(u32, u64)>,
) -> Result<Vec<LineSet>, NoMemory>
    ensures table { session.new.table ≡ session.old.table }
    ensures samples { T.samples session.new.trace ≡ T.samples session.old.trace }
    ensures left { IfOk result (λ lines. (read : Reader) → IsReader read → setting (alone session.new) set.new.items lines.items
        ≡ set_in read (world_in session.old) (alone session.old) set.old.items (file_named names.now path.now) asked.now) }
{
    match file_named(names, path) {
        Some(file) => set_file(alloc, session, file, asked, set),
        None => no_files(alloc, asked),
    }
}
