//! Requests: what each is read as.

use machine_core::{Asked, BadText, Cmd, Utf8};
use req_json::read_request;
use std::alloc::Global;
use std::test::Fail;
use text_core::NoMemory;

/// Texts, each with what it is read as: of a request its command and its fields, of any other text the code and the field of its
/// refusal; in front of both the number of its client.
static CASES: [(&[u8], &str); 83] = [
    (b"{\"cmd\":\"break\",\"line\":8}", "break 8 - -"),
    (
        b"{\"cmd\":\"break\",\"line\":8,\"instance\":\"B.x\"}",
        "break 8 B.x -",
    ),
    (
        b"{\"cmd\":\"break\",\"line\":14,\"cond\":\"(u == 8'h00)\",\"id\":3}",
        "3 break 14 - (u == 8'h00)",
    ),
    (
        b"{\"cmd\":\"break\",\"line\":14,\"cond\":null,\"instance\":null,\"id\":null}",
        "break 14 - -",
    ),
    // a place is the number of its file, and its line; the file is judged first, and then the line
    (
        b"{\"cmd\":\"break\",\"file\":63,\"line\":16777215}",
        "break 1073741823 - -",
    ),
    (
        b"{\"cmd\":\"break\",\"file\":64,\"line\":16777216}",
        "3 file",
    ),
    (
        b"{\"cmd\":\"break\",\"file\":1,\"line\":16777216}",
        "3 line",
    ),
    (b"{\"cmd\":\"break\",\"line\":16777216}", "3 line"),
    (b"{\"cmd\":\"delete\",\"bp\":7}", "delete 7"),
    (
        b"{\"cmd\":\"watch\",\"line\":12,\"instance\":\"A\",\"expr\":\"t\"}",
        "watch 12 A t",
    ),
    (b"{\"cmd\":\"watch\",\"line\":12,\"expr\":7}", "3 instance"),
    // a file is judged first, and left out it is 0
    (
        b"{\"cmd\":\"watch\",\"file\":null,\"line\":12,\"instance\":\"A\",\"expr\":\"t\"}",
        "watch 12 A t",
    ),
    (
        b"{\"cmd\":\"watch\",\"file\":63,\"line\":12,\"instance\":\"A\",\"expr\":\"t\"}",
        "watch 1056964620 A t",
    ),
    (
        b"{\"cmd\":\"watch\",\"file\":64,\"instance\":\"A\",\"expr\":\"t\"}",
        "3 file",
    ),
    (
        b"{\"cmd\":\"watch\",\"file\":1.0,\"line\":12,\"instance\":\"A\",\"expr\":\"t\"}",
        "3 file",
    ),
    (b"{\"cmd\":\"watch\",\"file\":0,\"expr\":\"t\"}", "3 line"),
    (b"{\"cmd\":\"unwatch\",\"wp\":9,\"id\":4}", "4 unwatch 9"),
    (b"{\"cmd\":\"unwatch\",\"bp\":9}", "3 wp"),
    (b"{\"cmd\":\"continue\"}", "continue"),
    (b"{\"cmd\":\"reverse\"}", "reverse"),
    (b"{\"cmd\":\"step\"}", "step -"),
    (b"{\"cmd\":\"step\",\"instance\":\"A\"}", "step A"),
    (b"{\"cmd\":\"back\",\"instance\":null}", "back -"),
    (b"{\"cmd\":\"back\",\"instance\":\"\"}", "back "),
    (b"{\"cmd\":\"pause\"}", "pause"),
    (b"{\"cmd\":\"threads\"}", "threads"),
    (b"{\"cmd\":\"values\",\"instance\":\"A\"}", "values A"),
    (
        b"{\"cmd\":\"eval\",\"instance\":\"A\",\"expr\":\"(r + d)\"}",
        "eval A (r + d)",
    ),
    (b"{\"cmd\":\"drop\",\"k\":2}", "drop 2"),
    (
        b"{\"cmd\":\"status\",\"id\":18446744073709551615}",
        "18446744073709551615 status",
    ),
    (b"{\"cmd\":\"bye\",\"id\":0}", "0 bye"),
    // further fields are passed over, blanks stand between, and the last of two equal keys counts
    (
        b" { \"x\" : [ 1.5 , { } ] ,\n\t\"cmd\" : \"bye\" }\r",
        "bye",
    ),
    (b"{\"cmd\":\"bye\",\"cmd\":\"pause\"}", "pause"),
    (b"{\"cmd\":7,\"cmd\":\"pause\"}", "pause"),
    (b"{\"cmd\":\"drop\",\"k\":null,\"k\":5}", "drop 5"),
    (b"{\"cmd\":\"drop\",\"k\":5,\"k\":null}", "3 k"),
    // escapes
    (b"{\"c\\u006dd\":\"st\\u0061tus\"}", "status"),
    (
        b"{\"cmd\":\"values\",\"instance\":\"a\\\"\\\\\\/b\"}",
        "values a\"\\/b",
    ),
    (
        b"{\"cmd\":\"values\",\"instance\":\"\\u00e9\"}",
        "values \u{e9}",
    ),
    // 2
    (b"nonsense", "2"),
    (b"", "2"),
    (b"\r", "2"),
    (b"{\"cmd\":\"status\"", "2"),
    (b"{\"cmd\":\"status\"}}", "2"),
    (b"{\"cmd\":\"status\",}", "2"),
    (b"{\"cmd\":\"\xff\"}", "2"),
    (b"{\"cmd\":\"status\"}\xff", "2"),
    (b"{\"cmd\":\"\\ud800\"}", "2"),
    (b"{\"cmd\":\"drop\",\"k\":01}", "2"),
    (b"{\"cmd\":\"bye\",\"x\":1e400}", "2"),
    // 3, for the whole, id and cmd, in this order
    (b"[]", "3 "),
    (b"null", "3 "),
    (b"\"status\"", "3 "),
    (b"{}", "3 cmd"),
    (b"{\"id\":5}", "5 3 cmd"),
    (b"{\"id\":5,\"cmd\":null}", "5 3 cmd"),
    (b"{\"id\":5,\"cmd\":[]}", "5 3 cmd"),
    (b"{\"id\":\"5\",\"cmd\":\"jump\"}", "3 id"),
    (b"{\"id\":-1,\"cmd\":1}", "3 id"),
    (b"{\"id\":1.0,\"cmd\":\"bye\"}", "3 id"),
    (b"{\"id\":18446744073709551616,\"cmd\":\"bye\"}", "3 id"),
    // 4, before the other fields
    (b"{\"cmd\":\"jump\"}", "4"),
    (b"{\"cmd\":\"\",\"line\":\"x\",\"id\":9}", "9 4"),
    (b"{\"cmd\":\"Break\",\"line\":8}", "4"),
    (b"{\"cmd\":\"break \",\"line\":8}", "4"),
    // 3, for the other fields in the order of the command's
    (b"{\"cmd\":\"break\"}", "3 line"),
    (
        b"{\"cmd\":\"break\",\"cond\":1,\"instance\":2,\"line\":\"8\"}",
        "3 line",
    ),
    (
        b"{\"cmd\":\"break\",\"cond\":1,\"instance\":2,\"line\":8,\"id\":4}",
        "4 3 instance",
    ),
    (
        b"{\"cmd\":\"break\",\"cond\":1,\"instance\":\"A\",\"line\":8}",
        "3 cond",
    ),
    (b"{\"cmd\":\"break\",\"line\":null}", "3 line"),
    (b"{\"cmd\":\"delete\",\"line\":7}", "3 bp"),
    (b"{\"cmd\":\"step\",\"instance\":[]}", "3 instance"),
    (b"{\"cmd\":\"back\",\"instance\":true}", "3 instance"),
    (b"{\"cmd\":\"values\"}", "3 instance"),
    (b"{\"cmd\":\"values\",\"instance\":null}", "3 instance"),
    (b"{\"cmd\":\"eval\",\"expr\":1}", "3 instance"),
    (
        b"{\"cmd\":\"eval\",\"instance\":\"A\",\"expr\":1}",
        "3 expr",
    ),
    // whole numbers
    (b"{\"cmd\":\"drop\",\"k\":1.0}", "3 k"),
    (b"{\"cmd\":\"drop\",\"k\":1e0}", "3 k"),
    (b"{\"cmd\":\"drop\",\"k\":-0}", "3 k"),
    (b"{\"cmd\":\"drop\",\"k\":-1}", "3 k"),
    (
        b"{\"cmd\":\"drop\",\"k\":18446744073709551615}",
        "drop 18446744073709551615",
    ),
    (b"{\"cmd\":\"drop\",\"k\":18446744073709551616}", "3 k"),
];

/// Adds a word, after a blank.
fn push_word(text: &mut Vec<u8>, word: &[u8]) -> Result<(), NoMemory> {
    text.push(b' ')?;
    text.extend_from_slice(word)?;
    Ok(())
}

/// Adds a number, after a blank.
fn push_number(alloc: Global, text: &mut Vec<u8>, number: u64) -> Result<(), NoMemory> {
    let digits = format!(in alloc; "{number}")?;
    push_word(text, digits.as_bytes())
}

/// Adds a text that may be left out, after a blank.
fn push_optional(text: &mut Vec<u8>, word: &Option<Utf8>) -> Result<(), NoMemory> {
    match word {
        Some(word) => push_word(text, word.text().as_bytes()),
        None => push_word(text, b"-"),
    }
}

/// Adds a breakpoint that is to be armed.
fn push_break(
    alloc: Global,
    text: &mut Vec<u8>,
    line: u64,
    instance: &Option<Utf8>,
    cond: &Option<Utf8>,
) -> Result<(), NoMemory> {
    push_word(text, b"break")?;
    push_number(alloc, text, line)?;
    push_optional(text, instance)?;
    push_optional(text, cond)
}

/// Adds a word and a number.
fn push_numbered(
    alloc: Global,
    text: &mut Vec<u8>,
    word: &[u8],
    number: u64,
) -> Result<(), NoMemory> {
    push_word(text, word)?;
    push_number(alloc, text, number)
}

/// Adds a command with its fields.
fn push_cmd(alloc: Global, text: &mut Vec<u8>, cmd: &Cmd) -> Result<(), NoMemory> {
    match cmd {
        Cmd::Break {
            line,
            instance,
            cond,
        } => push_break(alloc, text, *line, instance, cond),
        Cmd::Delete { bp } => push_numbered(alloc, text, b"delete", *bp),
        Cmd::Watch {
            line,
            instance,
            expr,
        } => {
            push_numbered(alloc, text, b"watch", *line)?;
            push_word(text, instance.text().as_bytes())?;
            push_word(text, expr.text().as_bytes())
        }
        Cmd::Unwatch { wp } => push_numbered(alloc, text, b"unwatch", *wp),
        Cmd::Continue => push_word(text, b"continue"),
        Cmd::Reverse => push_word(text, b"reverse"),
        Cmd::Step { instance } => {
            push_word(text, b"step")?;
            push_optional(text, instance)
        }
        Cmd::Back { instance } => {
            push_word(text, b"back")?;
            push_optional(text, instance)
        }
        Cmd::Pause => push_word(text, b"pause"),
        Cmd::Threads => push_word(text, b"threads"),
        Cmd::Values { instance } => {
            push_word(text, b"values")?;
            push_word(text, instance.text().as_bytes())
        }
        Cmd::Eval { instance, expr } => {
            push_word(text, b"eval")?;
            push_word(text, instance.text().as_bytes())?;
            push_word(text, expr.text().as_bytes())
        }
        Cmd::Drop { k } => push_numbered(alloc, text, b"drop", *k),
        Cmd::Status => push_word(text, b"status"),
        Cmd::Bye => push_word(text, b"bye"),
    }
}

/// Adds the code and the field of a refusal.
fn push_bad(alloc: Global, text: &mut Vec<u8>, bad: &BadText) -> Result<(), NoMemory> {
    push_number(alloc, text, u64::from(bad.code))?;
    match &bad.field {
        Some(field) => push_word(text, field.text().as_bytes()),
        None => Ok(()),
    }
}

/// Adds the number of a client, if there is one.
fn push_id(alloc: Global, text: &mut Vec<u8>, id: Option<u64>) -> Result<(), NoMemory> {
    match id {
        Some(id) => push_number(alloc, text, id),
        None => Ok(()),
    }
}

/// What a text is read as, in words, with a blank in front.
fn reading(alloc: Global, text: &[u8]) -> Result<Vec<u8>, NoMemory> {
    let mut words = Vec::new(alloc);
    match read_request(alloc, text)? {
        Asked::Good(request) => {
            push_id(alloc, &mut words, request.id)?;
            push_cmd(alloc, &mut words, &request.cmd)?;
        }
        Asked::Bad(bad) => {
            push_id(alloc, &mut words, bad.id)?;
            push_bad(alloc, &mut words, &bad)?;
        }
    }
    Ok(words)
}

/// Whether a text is read as these words.
fn is_read(alloc: Global, text: &[u8], words: &str) -> bool {
    match reading(alloc, text) {
        Ok(found) => found.len() > 0 && &found[1..] == words.as_bytes(),
        Err(_) => false,
    }
}

#[test]
fn each_text_is_read(rt: HostRuntime) -> Result<(), Fail> {
    for (text, words) in &CASES {
        assert!(rt; is_read(rt.alloc(), *text, *words));
    }
    Ok(())
}

/// A request, with blanks behind it up to a length.
fn filled(alloc: Global, len: usize) -> Result<Vec<u8>, NoMemory> {
    let mut text = Vec::new(alloc);
    text.extend_from_slice(b"{\"cmd\":\"bye\"}")?;
    for _ in text.len()..len {
        text.push(b' ')?;
    }
    Ok(text)
}

#[test]
fn a_request_has_at_most_65536_bytes(rt: HostRuntime) -> Result<(), Fail> {
    for (len, words) in [(65_536, "bye"), (65_537, "1")] {
        let Ok(text) = filled(rt.alloc(), len) else {
            return Err("memory lasts".into());
        };
        assert!(rt; is_read(rt.alloc(), &text, words));
    }
    Ok(())
}

/// A request with a further field in which so many lists are open at once.
fn nested(alloc: Global, count: usize) -> Result<Vec<u8>, NoMemory> {
    let mut text = Vec::new(alloc);
    text.extend_from_slice(b"{\"cmd\":\"bye\",\"x\":")?;
    for _ in 0..count {
        text.push(b'[')?;
    }
    for _ in 0..count {
        text.push(b']')?;
    }
    text.push(b'}')?;
    Ok(text)
}

#[test]
fn at_most_127_brackets_are_open(rt: HostRuntime) -> Result<(), Fail> {
    for (count, words) in [(126, "bye"), (127, "2"), (200, "2")] {
        let Ok(text) = nested(rt.alloc(), count) else {
            return Err("memory lasts".into());
        };
        assert!(rt; is_read(rt.alloc(), &text, words));
    }
    Ok(())
}
