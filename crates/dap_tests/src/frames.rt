//! Frames: what is taken off an input that comes whole, and off one that comes byte by byte.

use dap_link::{Framed, Framer};
use std::alloc::Global;
use std::test::Fail;
use text_core::NoMemory;

/// An input, as texts that come so many times; and what is taken off it, where more can come and where it is at its end: each body in angle
/// brackets, and then that more is wanted or the number of the fault.
struct Case {
    parts: &'static [(&'static str, usize)],
    open: &'static str,
    ended: &'static str,
}

static CASES: [Case; 45] = [
    Case {
        parts: &[(
            "Content-Length: 49\r\n\r\n{\"seq\":1,\"type\":\"request\",\"command\":\"initialize\"}",
            1,
        )],
        open: "<{\"seq\":1,\"type\":\"request\",\"command\":\"initialize\"}> more",
        ended: "<{\"seq\":1,\"type\":\"request\",\"command\":\"initialize\"}> more",
    },
    Case {
        parts: &[(
            "Content-Length: 49\r\n\r\n{\"seq\":1,\"type\":\"request\",\"command\":\"initialize\"}Content-Length: 29\r\n\r\n{\"command\":\"threads\",\"seq\":2}Content-",
            1,
        )],
        open: "<{\"seq\":1,\"type\":\"request\",\"command\":\"initialize\"}><{\"command\":\"threads\",\"seq\":2}> more",
        ended: "<{\"seq\":1,\"type\":\"request\",\"command\":\"initialize\"}><{\"command\":\"threads\",\"seq\":2}> fault 4",
    },
    Case {
        parts: &[(
            "X-y: z\ncontent-LENGTH:\t 49 \n\n{\"seq\":1,\"type\":\"request\",\"command\":\"initialize\"}",
            1,
        )],
        open: "<{\"seq\":1,\"type\":\"request\",\"command\":\"initialize\"}> more",
        ended: "<{\"seq\":1,\"type\":\"request\",\"command\":\"initialize\"}> more",
    },
    Case {
        parts: &[(
            "Content-Length: 00049\r\n\r\n{\"seq\":1,\"type\":\"request\",\"command\":\"initialize\"}",
            1,
        )],
        open: "<{\"seq\":1,\"type\":\"request\",\"command\":\"initialize\"}> more",
        ended: "<{\"seq\":1,\"type\":\"request\",\"command\":\"initialize\"}> more",
    },
    Case {
        parts: &[("", 1)],
        open: "more",
        ended: "more",
    },
    Case {
        parts: &[("Content-Length: x\r\n\r\n", 1)],
        open: "fault 2",
        ended: "fault 2",
    },
    Case {
        parts: &[("\r\n", 1)],
        open: "fault 2",
        ended: "fault 2",
    },
    Case {
        parts: &[("Content-Lengths: 5\r\n\r\n", 1)],
        open: "fault 2",
        ended: "fault 2",
    },
    Case {
        parts: &[("Content-Length: +5\r\n\r\n", 1)],
        open: "fault 2",
        ended: "fault 2",
    },
    Case {
        parts: &[("Content-Length: -5\r\n\r\n", 1)],
        open: "fault 2",
        ended: "fault 2",
    },
    Case {
        parts: &[("Content-Length:\r\n\r\n", 1)],
        open: "fault 2",
        ended: "fault 2",
    },
    Case {
        parts: &[(
            "Content-Length: 49\r\nContent-Length: 49\r\n\r\n{\"seq\":1,\"type\":\"request\",\"command\":\"initialize\"}",
            1,
        )],
        open: "fault 2",
        ended: "fault 2",
    },
    Case {
        parts: &[(
            "Content-Length: 49\r\nContent-Length: x\r\n\r\n{\"seq\":1,\"type\":\"request\",\"command\":\"initialize\"}",
            1,
        )],
        open: "<{\"seq\":1,\"type\":\"request\",\"command\":\"initialize\"}> more",
        ended: "<{\"seq\":1,\"type\":\"request\",\"command\":\"initialize\"}> more",
    },
    Case {
        parts: &[("Content-Length: 1048576\r\n\r\n", 1)],
        open: "more",
        ended: "fault 4",
    },
    Case {
        parts: &[("Content-Length: 1048577\r\n\r\n", 1)],
        open: "fault 3",
        ended: "fault 3",
    },
    Case {
        parts: &[("Content-Length: ", 1), ("9", 60), ("\r\n\r\n", 1)],
        open: "fault 3",
        ended: "fault 3",
    },
    Case {
        parts: &[("X: ", 1), ("a", 4092)],
        open: "more",
        ended: "fault 4",
    },
    Case {
        parts: &[("X: ", 1), ("a", 4093)],
        open: "fault 1",
        ended: "fault 1",
    },
    Case {
        parts: &[
            ("X: ", 1),
            ("a", 4069),
            (
                "\r\nContent-Length: 49\r\n\r\n{\"seq\":1,\"type\":\"request\",\"command\":\"initialize\"}",
                1,
            ),
        ],
        open: "<{\"seq\":1,\"type\":\"request\",\"command\":\"initialize\"}> more",
        ended: "<{\"seq\":1,\"type\":\"request\",\"command\":\"initialize\"}> more",
    },
    Case {
        parts: &[
            ("X: ", 1),
            ("a", 4070),
            (
                "\r\nContent-Length: 49\r\n\r\n{\"seq\":1,\"type\":\"request\",\"command\":\"initialize\"}",
                1,
            ),
        ],
        open: "fault 1",
        ended: "fault 1",
    },
    Case {
        parts: &[
            ("A: b\r\n", 15),
            (
                "Content-Length: 49\r\n\r\n{\"seq\":1,\"type\":\"request\",\"command\":\"initialize\"}",
                1,
            ),
        ],
        open: "<{\"seq\":1,\"type\":\"request\",\"command\":\"initialize\"}> more",
        ended: "<{\"seq\":1,\"type\":\"request\",\"command\":\"initialize\"}> more",
    },
    Case {
        parts: &[
            ("A: b\r\n", 16),
            (
                "Content-Length: 49\r\n\r\n{\"seq\":1,\"type\":\"request\",\"command\":\"initialize\"}",
                1,
            ),
        ],
        open: "fault 1",
        ended: "fault 1",
    },
    Case {
        parts: &[("A: b\r\n", 16), ("C", 1)],
        open: "fault 1",
        ended: "fault 1",
    },
    Case {
        parts: &[("A: b\r\n", 16), ("\r", 1)],
        open: "more",
        ended: "fault 4",
    },
    Case {
        parts: &[("Content Length: 5\r\n\r\n", 1)],
        open: "fault 1",
        ended: "fault 1",
    },
    Case {
        parts: &[(" Content-Length: 5\r\n\r\n", 1)],
        open: "fault 1",
        ended: "fault 1",
    },
    Case {
        parts: &[(
            "Content-Length: 49\r\n\r\n{\"seq\":1,\"type\":\"request\",\"command\":\"initialize\"",
            1,
        )],
        open: "more",
        ended: "fault 4",
    },
    Case {
        parts: &[("Content-Length: 0\r\n\r\n", 1)],
        open: "fault 5",
        ended: "fault 5",
    },
    Case {
        parts: &[("Content-Length: 3\r\n\r\n[1]", 1)],
        open: "fault 5",
        ended: "fault 5",
    },
    Case {
        parts: &[("Content-Length: 2\r\n\r\n{}", 1)],
        open: "fault 5",
        ended: "fault 5",
    },
    Case {
        parts: &[("Content-Length: 9\r\n\r\n{\"seq\":1}", 1)],
        open: "fault 5",
        ended: "fault 5",
    },
    Case {
        parts: &[("Content-Length: 15\r\n\r\n{\"command\":\"a\"}", 1)],
        open: "fault 5",
        ended: "fault 5",
    },
    Case {
        parts: &[("Content-Length: 21\r\n\r\n{\"seq\":1,\"command\":7}", 1)],
        open: "fault 5",
        ended: "fault 5",
    },
    Case {
        parts: &[(
            "Content-Length: 24\r\n\r\n{\"seq\":-1,\"command\":\"a\"}",
            1,
        )],
        open: "fault 5",
        ended: "fault 5",
    },
    Case {
        parts: &[(
            "Content-Length: 25\r\n\r\n{\"seq\":1.0,\"command\":\"a\"}",
            1,
        )],
        open: "fault 5",
        ended: "fault 5",
    },
    Case {
        parts: &[(
            "Content-Length: 25\r\n\r\n{\"seq\":\"1\",\"command\":\"a\"}",
            1,
        )],
        open: "fault 5",
        ended: "fault 5",
    },
    Case {
        parts: &[(
            "Content-Length: 41\r\n\r\n{\"seq\":9223372036854775808,\"command\":\"a\"}",
            1,
        )],
        open: "fault 5",
        ended: "fault 5",
    },
    Case {
        parts: &[(
            "Content-Length: 41\r\n\r\n{\"seq\":9223372036854775807,\"command\":\"a\"}",
            1,
        )],
        open: "<{\"seq\":9223372036854775807,\"command\":\"a\"}> more",
        ended: "<{\"seq\":9223372036854775807,\"command\":\"a\"}> more",
    },
    Case {
        parts: &[("Content-Length: 22\r\n\r\n{\"seq\":0,\"command\":\"\"}", 1)],
        open: "<{\"seq\":0,\"command\":\"\"}> more",
        ended: "<{\"seq\":0,\"command\":\"\"}> more",
    },
    Case {
        parts: &[(
            "Content-Length: 45\r\n\r\n{\"seq\":\"x\",\"command\":1,\"seq\":1,\"command\":\"a\"}",
            1,
        )],
        open: "<{\"seq\":\"x\",\"command\":1,\"seq\":1,\"command\":\"a\"}> more",
        ended: "<{\"seq\":\"x\",\"command\":1,\"seq\":1,\"command\":\"a\"}> more",
    },
    Case {
        parts: &[(
            "Content-Length: 34\r\n\r\n{\"seq\":1,\"command\":\"a\",\"seq\":null}",
            1,
        )],
        open: "fault 5",
        ended: "fault 5",
    },
    Case {
        parts: &[(
            "Content-Length: 32\r\n\r\n {\"command\" : \"a\" , \"seq\" : 3 } ",
            1,
        )],
        open: "< {\"command\" : \"a\" , \"seq\" : 3 } > more",
        ended: "< {\"command\" : \"a\" , \"seq\" : 3 } > more",
    },
    Case {
        parts: &[("Content-Length: 22\r\n\r\n{\"seq\":1,\"command\":\"a\"", 1)],
        open: "fault 5",
        ended: "fault 5",
    },
    Case {
        parts: &[
            (
                "Content-Length: 280\r\n\r\n{\"seq\":1,\"command\":\"a\",\"x\":",
                1,
            ),
            ("[", 126),
            ("]", 126),
            ("}", 1),
        ],
        open: "<{\"seq\":1,\"command\":\"a\",\"x\":[[[[[[[[[[[[[[[[[[[[[[[[[[[[[[[[[[[[[[[[[[[[[[[[[[[[[[[[[[[[[[[[[[[[[[[[[[[[[[[[[[[[[[[[[[[[[[[[[[[[[[[[[[[[[[[[[[[[[[[[[[[[[[]]]]]]]]]]]]]]]]]]]]]]]]]]]]]]]]]]]]]]]]]]]]]]]]]]]]]]]]]]]]]]]]]]]]]]]]]]]]]]]]]]]]]]]]]]]]]]]]]]]]]]]]]]]]]]]]]]]]]]]]]]]]]]}> more",
        ended: "<{\"seq\":1,\"command\":\"a\",\"x\":[[[[[[[[[[[[[[[[[[[[[[[[[[[[[[[[[[[[[[[[[[[[[[[[[[[[[[[[[[[[[[[[[[[[[[[[[[[[[[[[[[[[[[[[[[[[[[[[[[[[[[[[[[[[[[[[[[[[[[[[[[[[[[]]]]]]]]]]]]]]]]]]]]]]]]]]]]]]]]]]]]]]]]]]]]]]]]]]]]]]]]]]]]]]]]]]]]]]]]]]]]]]]]]]]]]]]]]]]]]]]]]]]]]]]]]]]]]]]]]]]]]]]]]]]]]]}> more",
    },
    Case {
        parts: &[
            (
                "Content-Length: 282\r\n\r\n{\"seq\":1,\"command\":\"a\",\"x\":",
                1,
            ),
            ("[", 127),
            ("]", 127),
            ("}", 1),
        ],
        open: "fault 5",
        ended: "fault 5",
    },
];

/// The bytes of an input.
fn input_of(alloc: Global, case: &Case) -> Result<Vec<u8>, NoMemory> {
    let mut input = Vec::new(alloc);
    for (text, times) in case.parts {
        for _ in 0..*times {
            input.extend_from_slice(text.as_bytes())?;
        }
    }
    Ok(input)
}

/// Adds the messages that are there, at most so many.
fn take_messages(framer: &mut Framer, words: &mut Vec<u8>, most: usize) -> Result<(), NoMemory> {
    for _ in 0..most {
        match framer.next(false)? {
            Framed::Message(body) => {
                words.push(b'<')?;
                words.extend_from_slice(&body)?;
                words.push(b'>')?;
            }
            Framed::More | Framed::Fault(_) => return Ok(()),
        }
    }
    Ok(())
}

/// Adds what is said where no message is there.
fn take_end(framer: &mut Framer, words: &mut Vec<u8>, ended: bool) -> Result<(), NoMemory> {
    if !words.is_empty() {
        words.push(b' ')?;
    }
    match framer.next(ended)? {
        Framed::Message(_) => words.extend_from_slice(b"a message")?,
        Framed::More => words.extend_from_slice(b"more")?,
        Framed::Fault(fault) => {
            words.extend_from_slice(b"fault ")?;
            words.push(b'0' + fault % 10)?;
        }
    }
    Ok(())
}

/// What is taken off an input that comes in pieces.
fn taken(alloc: Global, input: &[u8], by_byte: bool, ended: bool) -> Result<Vec<u8>, NoMemory> {
    let mut framer = Framer::new(alloc);
    let mut words = Vec::new(alloc);
    if by_byte {
        for byte in input {
            framer.feed(&[*byte])?;
            take_messages(&mut framer, &mut words, 1)?;
        }
    } else {
        framer.feed(input)?;
        take_messages(&mut framer, &mut words, 10)?;
    }
    take_end(&mut framer, &mut words, ended)?;
    Ok(words)
}

/// Whether these words are taken off an input, however it comes.
fn is_taken(alloc: Global, case: &Case, ended: bool, words: &str) -> Result<bool, NoMemory> {
    let input = input_of(alloc, case)?;
    let whole = taken(alloc, &input, false, ended)?;
    let bytes = taken(alloc, &input, true, ended)?;
    Ok(whole.as_slice() == words.as_bytes() && bytes.as_slice() == words.as_bytes())
}

/// Whether a case is as wanted, at its end and where more can come.
fn is_case(alloc: Global, case: &Case) -> Result<bool, NoMemory> {
    Ok(is_taken(alloc, case, false, case.open)? && is_taken(alloc, case, true, case.ended)?)
}

/// Whether memory was found, and the answer is yes.
fn is_true(answer: Result<bool, NoMemory>) -> bool {
    match answer {
        Ok(answer) => answer,
        Err(_) => false,
    }
}

#[test]
fn each_input_is_framed(rt: HostRuntime) -> Result<(), Fail> {
    for case in &CASES {
        assert!(rt; is_true(is_case(rt.alloc(), case)));
    }
    Ok(())
}

/// Whether a fault is told again, also once a whole message is behind it.
fn stays(alloc: Global) -> Result<bool, NoMemory> {
    let mut framer = Framer::new(alloc);
    framer.feed(b"\r\n")?;
    let first = matches!(framer.next(false)?, Framed::Fault(2));
    framer.feed(b"Content-Length: 27\r\n\r\n{\"seq\":1,\"command\":\"next\"}")?;
    Ok(first && matches!(framer.next(true)?, Framed::Fault(2)))
}

#[test]
fn a_fault_stays(rt: HostRuntime) -> Result<(), Fail> {
    assert!(rt; is_true(stays(rt.alloc())));
    Ok(())
}
