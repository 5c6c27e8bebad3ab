//! What is said on standard error once a run is over: why it ended as it did, where that is in the files, and what to do.
//!
//! It is for the people who run the program, and for nobody else: standard output and the status are told before any of it. So whatever fails
//! here, as a file that is not read again or memory that is short, is passed over, and less is said. A file is looked at again only if it is a
//! regular one: a pipe would be waited for.

use crate::noted::NotedFiles;
use advice::{
    Advice, Assigned, Declared, Fault, advice_on, assigns, declared_as, declared_line, fault_of,
    line_at, line_of_offset, sentence_on, signs_of,
};
use io_edge::{Files as Read, StdFiles, Words};
use std::alloc::Global;
use std::rt::Files;
use std::{fs, io};

/// How many bytes of a source and of a stimulus are read again at most.
const SOURCE: usize = 1048576;

const STIMULUS: usize = 67108864;

/// How many characters of a line are shown at most.
const SHOWN: usize = 160;

/// How many signals of a loop are shown at most.
const PLACES: usize = 64;

/// A word of the command line, from 0, where it is there.
fn word(words: &Words, place: usize) -> Option<&str> {
    if place < words.count() {
        Some(words.word(place))
    } else {
        None
    }
}

/// The whole words of the first line of what was printed, of which only the front may be there.
fn first_line(front: &[u8]) -> Option<&str> {
    let text = str::from_utf8(front).ok()?;
    match text.split_once('\n') {
        Some((line, _)) => Some(line),
        None => text.rsplit_once(' ').map(|(whole, _)| whole),
    }
}

/// The bytes of a file, read once more, if it is a regular one of no more than so many.
fn read_again<R: Files + AllocGlobal>(rt: &R, name: &str, most: usize) -> Option<Vec<u8>> {
    if !fs::metadata(rt, name).ok()?.is_file() {
        return None;
    }
    StdFiles::new(rt).read_all(rt.alloc(), name, most).ok()
}

/// The front of a line as it can be shown: what is no printable character is a blank or a question mark. Of an empty line there is nothing to show.
fn shown(alloc: Global, line: &[u8]) -> Option<String> {
    if line.is_empty() {
        return None;
    }
    let mut text = String::new(alloc);
    for byte in line.iter().take(SHOWN) {
        let shown = match *byte {
            32..=126 => char::from(*byte),
            b'\t' | b'\r' => ' ',
            _ => '?',
        };
        text.push(shown).ok()?;
    }
    Some(text)
}

/// Shows a place in a file, with its line where that is there; a note on it stands behind.
fn show<R: Eprint + AllocGlobal>(rt: &R, name: &str, text: &[u8], line: u64, note: Option<&str>) {
    let _ = match note {
        Some(note) => eprintln!(rt; " --> {name}:{line}: {note}"),
        None => eprintln!(rt; " --> {name}:{line}"),
    };
    if let Some(found) = line_at(text, line).and_then(|line| shown(rt.alloc(), line)) {
        let _ = eprintln!(rt; "{line} | {found}");
    }
}

/// Shows each signal of a loop with the line of its declaration. A child's output and its parent's name for it stand behind each other with one
/// path, which is shown once.
fn show_loop<R: Eprint + AllocGlobal>(rt: &R, name: &str, text: &[u8], paths: &str) {
    let mut last: &[u8] = &[];
    for path in paths.split(' ').take(PLACES) {
        if path.as_bytes() != last {
            show_signal(rt, name, text, path);
        }
        last = path.as_bytes();
    }
    if paths.split(' ').count() > PLACES {
        let _ = eprintln!(rt; " --> and others");
    }
}

/// Shows a signal of a loop, with the line of its declaration where that is found.
fn show_signal<R: Eprint + AllocGlobal>(rt: &R, name: &str, text: &[u8], path: &str) {
    match declared_line(text, path) {
        Some(line) => show(rt, name, text, line, Some(path)),
        None => {
            let _ = eprintln!(rt; " --> {path}");
        }
    }
}

/// Says what a line has that no source has.
fn say_signs<R: Eprint + AllocGlobal>(rt: &R, text: &[u8], line: u64) {
    let Some(found) = line_at(text, line).and_then(|line| shown(rt.alloc(), line)) else {
        return;
    };
    let signs = signs_of(found.as_str());
    if let Some(mark) = signs.mark {
        let _ = eprintln!(rt; "  = {mark}");
    }
    if signs.keyword {
        let _ = eprintln!(rt; "  = a keyword stands where a name is declared: take another name");
    }
    if signs.one_bound {
        let _ = eprintln!(rt; "  = a slice has two bounds: write [0:0] for [0]");
    }
}

/// Says of a name that is declared and assigned why it is refused all the same: it is assigned in another way than it can be.
fn say_assigned<R: Eprint + AllocGlobal>(rt: &R, text: &[u8], line: u64, name: &str) {
    let Some(found) = line_at(text, line).and_then(|line| shown(rt.alloc(), line)) else {
        return;
    };
    let equals = assigns(found.as_str(), name, Assigned::Equals);
    let arrow = assigns(found.as_str(), name, Assigned::Arrow);
    let _ = match declared_as(text, line, name) {
        Some(Declared::Input) if equals || arrow => eprintln!(rt;
            "  = {name} is an input: its module cannot assign it"
        ),
        Some(Declared::Reg) if equals => eprintln!(rt;
            "  = {name} is a register: an ff assigns it, with <="
        ),
        Some(Declared::Wire | Declared::Output) if arrow => {
            eprintln!(rt; "  = {name} is a wire or an output: a comb assigns it, with =")
        }
        _ => return,
    };
}

/// The fields behind this one, where they begin with it.
fn behind<'a>(fields: &'a str, name: &str) -> &'a str {
    match fields.strip_prefix(name) {
        Some(rest) => rest.split_once(' ').map_or("", |(_, rest)| rest),
        None => fields,
    }
}

/// Says the fields of a refusal but for the file and the line, which are shown.
fn say_fields(rt: &impl Eprint, fields: &str) {
    let rest = behind(behind(fields, "file "), "line ");
    if !rest.is_empty() {
        let _ = eprintln!(rt; "  = {rest}");
    }
}

/// Shows where a source is refused.
fn show_design<R: Files + Eprint + AllocGlobal>(rt: &R, name: &str, fault: &Fault<'_>) {
    let text = read_again(rt, name, SOURCE).unwrap_or(Vec::new(rt.alloc()));
    if fault.name == "CombLoop" {
        show_loop(rt, name, &text, fault.fields);
        return;
    }
    let line = match fault.number_in("offset") {
        Some(offset) => Some(line_of_offset(&text, offset)),
        None => fault.number_in("line"),
    };
    match line {
        Some(0) => {
            let _ = eprintln!(rt; " --> the words of the command");
        }
        Some(line) => show(rt, name, &text, line, None),
        None => {
            let _ = eprintln!(rt; " --> {name}");
        }
    }
    if let Some(first) = fault.number_in("first") {
        show(rt, name, &text, first, Some("the first one"));
    }
    say_fields(rt, fault.fields);
    say_more(rt, &text, fault);
}

/// Says what the source tells beside its line.
fn say_more<R: Eprint + AllocGlobal>(rt: &R, text: &[u8], fault: &Fault<'_>) {
    let Some(line) = fault.number_in("line") else {
        return;
    };
    match fault.name {
        "BadToken" | "Syntax" => say_signs(rt, text, line),
        "UnknownName" => {
            if let Some(name) = fault.field("name") {
                say_assigned(rt, text, line, name);
            }
        }
        _ => {}
    }
}

/// Shows where a stimulus is refused: row 0 stands in line 2.
fn show_stimulus<R: Files + Eprint + AllocGlobal>(rt: &R, name: &str, fault: &Fault<'_>) {
    let line = match fault.name {
        "HeaderMismatch" => 1,
        "TooLong" => 0,
        _ => fault.number_in("row").unwrap_or(0).saturating_add(2),
    };
    if line == 0 {
        let _ = eprintln!(rt; " --> {name}");
        return;
    }
    let text = read_again(rt, name, STIMULUS).unwrap_or(Vec::new(rt.alloc()));
    show(rt, name, &text, line, None);
    say_fields(rt, fault.fields);
}

/// The name of the file of a design that a refusal stands in: the source, or the one of this number, of those that were imported.
fn file_of<'a>(words: &'a Words, imported: &'a [String], fault: &Fault<'_>) -> Option<&'a str> {
    match fault.number_in("file") {
        Some(file) => {
            let name = imported.get((file as usize).checked_sub(1)?)?;
            Some(name.as_str())
        }
        None => word(words, 2),
    }
}

/// Shows where the file that is refused is so.
fn show_refused<R: Files + Eprint + AllocGlobal>(
    rt: &R,
    words: &Words,
    imported: &[String],
    fault: &Fault<'_>,
) {
    if fault.kind == "design" {
        if let Some(name) = file_of(words, imported, fault) {
            show_design(rt, name, fault);
        }
    } else if let Some(name) = word(words, 3) {
        show_stimulus(rt, name, fault);
    }
}

/// Says what a refusal is.
fn say_refusal(rt: &impl Eprint, fault: &Fault<'_>, advice: &Advice) {
    let _ = eprintln!(rt; "error[{}] {}: {}", fault.number, advice.name, advice.means);
}

/// Says what to do about it.
fn say_todo(rt: &impl Eprint, advice: &Advice) {
    let _ = eprintln!(rt; "  = {}", advice.todo);
    let _ = eprintln!(rt;
        "  = docs/FAULTS.md has every refusal, docs/LANGUAGE.md an example of each"
    );
}

/// Explains a refusal of which something is known.
fn explain_fault<R: Files + Eprint + AllocGlobal>(
    rt: &R,
    words: &Words,
    imported: &[String],
    fault: &Fault<'_>,
) {
    if let Some(advice) = advice_on(fault.kind, fault.number) {
        say_refusal(rt, fault, &advice);
        show_refused(rt, words, imported, fault);
        say_todo(rt, &advice);
    }
}

/// Explains the refusal of a source or a stimulus, whose line is the first of what was printed.
fn explain_refusal<R: Files + Eprint + AllocGlobal>(
    rt: &R,
    words: &Words,
    imported: &[String],
    front: &[u8],
) {
    if let Some(fault) = first_line(front).and_then(|line| fault_of(line)) {
        explain_fault(rt, words, imported, &fault);
    }
}

/// Says which file was not read, and what the system says of it.
fn explain_file<R: Files + Eprint>(rt: &R, name: &str) {
    let _ = match fs::metadata(rt, name) {
        Err(error) => eprintln!(rt; "hgdb: {name} was not read: {error}"),
        Ok(found) if found.is_dir() => eprintln!(rt; "hgdb: {name} was not read: it is a folder"),
        Ok(found) if !found.is_file() => eprintln!(rt;
            "hgdb: {name} was not read, and is no regular file"
        ),
        Ok(_) => match fs::open(rt, name) {
            Err(error) => eprintln!(rt; "hgdb: {name} was not read: {error}"),
            Ok(_) => eprintln!(rt; "hgdb: {name} was not read, though it can be opened"),
        },
    };
}

/// Says on standard error what this status means, where it is not 0 and no place in a file belongs to it.
pub fn explain_status(rt: &impl Eprint, status: u8) {
    if let Some(sentence) = sentence_on(status) {
        let _ = eprintln!(rt; "hgdb: {sentence}");
    }
}

/// Says on standard error why a run with these words ended with this status: of a file that was not read the name, of a refusal the front of
/// what was printed.
pub fn explain<R: Files + Eprint + AllocGlobal, F: Read>(
    rt: &R,
    words: &Words,
    status: u8,
    files: &NotedFiles<F>,
    front: &[u8],
) {
    if status == 3 || status == 4 {
        explain_refusal(rt, words, files.imported(), front);
    } else if let (7, Some(name)) = (status, files.missed()) {
        explain_file(rt, name);
    } else {
        explain_status(rt, status);
    }
}

/// Says on standard error what the system said where it let nobody listen at the address of a service.
pub fn explain_address(rt: &impl Eprint, address: &str, refused: Option<&io::Error>) {
    if let Some(error) = refused {
        let _ = eprintln!(rt; "hgdb: nobody can listen at {address}: {error}");
    }
}
