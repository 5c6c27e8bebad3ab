//! Replies: the bytes of each.

use bv_core::{Bv, Sample};
use machine_core::{At, Body, Going, Reply, Shown};
use req_json::reply_text;
use std::alloc::Global;
use std::test::Fail;
use text_core::{Listed, NoMemory, Text};

/// A name.
fn name(alloc: Global, bytes: &[u8]) -> Result<Text, NoMemory> {
    Text::new(alloc, bytes)
}

/// A list of names.
fn names(alloc: Global, all: &[&str]) -> Result<Listed<Text>, NoMemory> {
    let mut list = Vec::new(alloc);
    for one in all {
        list.push(name(alloc, one.as_bytes())?)?;
    }
    Ok(Listed::new(list))
}

/// Generator variables.
fn gens(alloc: Global, all: &[(&str, i64)]) -> Result<Listed<(Text, i64)>, NoMemory> {
    let mut list = Vec::new(alloc);
    for one in all {
        list.push((name(alloc, one.0.as_bytes())?, one.1))?;
    }
    Ok(Listed::new(list))
}

/// Names with what is shown of each.
fn values(alloc: Global, all: &[(&str, Shown)]) -> Result<Listed<(Text, Shown)>, NoMemory> {
    let mut list = Vec::new(alloc);
    for one in all {
        list.push((name(alloc, one.0.as_bytes())?, one.1))?;
    }
    Ok(Listed::new(list))
}

/// A list of numbers or pairs.
fn listed<T: Copy + Drop>(alloc: Global, all: &[T]) -> Result<Listed<T>, NoMemory> {
    let mut list = Vec::new(alloc);
    for one in all {
        list.push(*one)?;
    }
    Ok(Listed::new(list))
}

/// A reply: its number, that of its client, which body it has, and its text.
type Case = (u64, Option<u64>, u32, &'static str);

static ACCEPTED: [Case; 23] = [
    (
        14,
        None,
        0,
        "{\"bp\":1,\"ok\":true,\"seq\":14,\"slots\":[0]}",
    ),
    (
        2,
        Some(0),
        1,
        "{\"bp\":18446744073709551615,\"id\":0,\"ok\":true,\"seq\":2,\"slots\":[2,5]}",
    ),
    (1, Some(7), 2, "{\"id\":7,\"ok\":true,\"seq\":1}"),
    (15, None, 3, "{\"ok\":true,\"seq\":15}"),
    (1, None, 4, "{\"ok\":true,\"seq\":1}"),
    (
        18446744073709551615,
        None,
        5,
        "{\"ok\":true,\"seq\":18446744073709551615}",
    ),
    (1, None, 6, "{\"ok\":true,\"seq\":1}"),
    (1, None, 7, "{\"ok\":true,\"seq\":1}"),
    (
        1,
        None,
        8,
        "{\"at\":{\"cycle\":3,\"slot\":2},\"ok\":true,\"seq\":1}",
    ),
    (
        1,
        Some(3),
        9,
        "{\"at\":\"end\",\"id\":3,\"ok\":true,\"seq\":1}",
    ),
    (
        5,
        None,
        10,
        "{\"at\":{\"cycle\":2,\"slot\":5},\"gens\":[[\"W\",8],[\"i\",-1]],\"line\":8,\"ok\":true,\"seq\":5,\"threads\":[\"C.u#0\",\"C.u#1\"]}",
    ),
    (
        5,
        Some(9),
        10,
        "{\"at\":{\"cycle\":2,\"slot\":5},\"gens\":[[\"W\",8],[\"i\",-1]],\"id\":9,\"line\":8,\"ok\":true,\"seq\":5,\"threads\":[\"C.u#0\",\"C.u#1\"]}",
    ),
    (
        5,
        None,
        11,
        "{\"ok\":true,\"seq\":5,\"values\":[[\"en\",\"1'h1\"],[\"d\",\"8'hff\"],[\"q\",\"unset\"],[\"t\",\"removed\"],[\"r\",\"x\"]]}",
    ),
    (
        3,
        None,
        12,
        "{\"ok\":true,\"seq\":3,\"value\":\"128'hfffffffffffffffffffffffffffffffe\"}",
    ),
    (3, None, 13, "{\"ok\":true,\"seq\":3,\"value\":\"x\"}"),
    (4, None, 14, "{\"ok\":true,\"rows\":[[40,1]],\"seq\":4}"),
    (
        4,
        Some(1),
        15,
        "{\"id\":1,\"ok\":true,\"rows\":[],\"seq\":4}",
    ),
    (
        6,
        None,
        16,
        "{\"at\":\"start\",\"bps\":[],\"listeners\":[0,1],\"mode\":\"idle\",\"ok\":true,\"seq\":6}",
    ),
    (
        6,
        Some(2),
        17,
        "{\"at\":\"end\",\"bps\":[1,3],\"id\":2,\"listeners\":[0,1],\"mode\":\"backward\",\"ok\":true,\"seq\":6}",
    ),
    (
        6,
        None,
        18,
        "{\"at\":\"end\",\"bps\":[7],\"listeners\":[0,1],\"mode\":\"forward\",\"ok\":true,\"seq\":6}",
    ),
    (
        1,
        None,
        19,
        "{\"ok\":true,\"seq\":1,\"slots\":[3],\"wp\":1}",
    ),
    (2, Some(8), 20, "{\"id\":8,\"ok\":true,\"seq\":2}"),
    (
        5,
        None,
        21,
        "{\"at\":{\"cycle\":2,\"slot\":5},\"file\":63,\"gens\":[[\"W\",8],[\"i\",-1]],\"line\":8,\"ok\":true,\"seq\":5,\"threads\":[\"C.u#0\",\"C.u#1\"]}",
    ),
];

static REFUSED: [Case; 21] = [
    (
        9,
        None,
        0,
        "{\"code\":1,\"error\":\"TooLong\",\"ok\":false,\"seq\":9}",
    ),
    (
        1,
        None,
        1,
        "{\"code\":2,\"error\":\"NotJson\",\"ok\":false,\"seq\":1}",
    ),
    (
        2,
        Some(5),
        2,
        "{\"code\":3,\"error\":\"BadShape\",\"field\":\"cmd\",\"id\":5,\"ok\":false,\"seq\":2}",
    ),
    (
        2,
        None,
        3,
        "{\"code\":3,\"error\":\"BadShape\",\"field\":\"\",\"ok\":false,\"seq\":2}",
    ),
    (
        3,
        None,
        4,
        "{\"code\":4,\"error\":\"UnknownCmd\",\"ok\":false,\"seq\":3}",
    ),
    (
        4,
        None,
        5,
        "{\"code\":5,\"error\":\"NoSite\",\"line\":11,\"ok\":false,\"seq\":4}",
    ),
    (
        5,
        None,
        6,
        "{\"code\":6,\"error\":\"NoInstance\",\"instance\":\"B.x\",\"ok\":false,\"seq\":5}",
    ),
    (
        9,
        None,
        7,
        "{\"code\":7,\"error\":\"BadCond\",\"offset\":6,\"ok\":false,\"seq\":9}",
    ),
    (
        8,
        None,
        8,
        "{\"code\":7,\"error\":\"BadCond\",\"name\":\"zz\",\"ok\":false,\"seq\":8}",
    ),
    (
        8,
        None,
        9,
        "{\"code\":7,\"error\":\"BadCond\",\"name\":\"\\\"\\\\/\\b\\f\\n\\r\\t\\u0001\\u001f\u{7f}\u{e9}\",\"ok\":false,\"seq\":8}",
    ),
    (
        6,
        None,
        10,
        "{\"code\":8,\"error\":\"CondRemoved\",\"name\":\"u\",\"ok\":false,\"seq\":6,\"slot\":5}",
    ),
    (
        7,
        None,
        11,
        "{\"code\":9,\"error\":\"CondUnset\",\"name\":\"u\",\"ok\":false,\"seq\":7,\"slot\":3}",
    ),
    (
        16,
        None,
        12,
        "{\"code\":10,\"error\":\"Busy\",\"mode\":\"forward\",\"ok\":false,\"seq\":16}",
    ),
    (
        11,
        None,
        13,
        "{\"code\":11,\"error\":\"NotRunning\",\"ok\":false,\"seq\":11}",
    ),
    (
        12,
        None,
        14,
        "{\"at\":\"start\",\"code\":12,\"error\":\"NoStop\",\"ok\":false,\"seq\":12}",
    ),
    (
        8,
        Some(6),
        15,
        "{\"code\":13,\"error\":\"TooMany\",\"id\":6,\"limit\":1024,\"ok\":false,\"seq\":8}",
    ),
    (
        10,
        None,
        16,
        "{\"bp\":7,\"code\":14,\"error\":\"NoBreakpoint\",\"ok\":false,\"seq\":10}",
    ),
    (
        13,
        None,
        17,
        "{\"code\":15,\"error\":\"NoListener\",\"k\":2,\"ok\":false,\"seq\":13}",
    ),
    (
        258,
        None,
        18,
        "{\"code\":16,\"error\":\"TooManyWatches\",\"limit\":256,\"ok\":false,\"seq\":258}",
    ),
    (
        1,
        None,
        19,
        "{\"code\":17,\"error\":\"NoWatch\",\"ok\":false,\"seq\":1,\"wp\":9}",
    ),
    (
        4,
        Some(2),
        20,
        "{\"code\":5,\"error\":\"NoSite\",\"file\":1,\"id\":2,\"line\":13,\"ok\":false,\"seq\":4}",
    ),
];

/// An armed breakpoint.
fn armed(alloc: Global, bp: u64, slots: &[u32]) -> Result<Body, NoMemory> {
    Ok(Body::Break {
        bp,
        slots: listed(alloc, slots)?,
    })
}

/// An armed watch.
fn watched(alloc: Global, slots: &[u32], wp: u64) -> Result<Body, NoMemory> {
    Ok(Body::Watch {
        slots: listed(alloc, slots)?,
        wp,
    })
}

/// What is at a stop at this place.
fn at_stop(alloc: Global, line: u32) -> Result<Body, NoMemory> {
    Ok(Body::Threads {
        at: At::Position { cycle: 2, slot: 5 },
        gens: gens(alloc, &[("W", 8), ("i", -1)])?,
        line,
        threads: names(alloc, &["C.u#0", "C.u#1"])?,
    })
}

/// A value.
fn bits(width: u8, value: u128) -> Result<Bv, NoMemory> {
    Bv::make(width, value).ok_or(NoMemory)
}

/// What is shown in a thread.
fn shown(alloc: Global) -> Result<Body, NoMemory> {
    let all = [
        ("en", Shown::Value(bits(1, 1)?)),
        ("d", Shown::Value(bits(8, 255)?)),
        ("q", Shown::Unset),
        ("t", Shown::Removed),
        ("r", Shown::Unknown),
    ];
    Ok(Body::Values {
        values: values(alloc, &all)?,
    })
}

/// The value of an expression.
fn evaluated() -> Result<Body, NoMemory> {
    Ok(Body::Eval {
        value: Sample::Known(bits(128, u128::MAX - 1)?),
    })
}

/// The pairs of a listener.
fn dropped(alloc: Global, rows: &[(u64, u64)]) -> Result<Body, NoMemory> {
    Ok(Body::Drop {
        rows: listed(alloc, rows)?,
    })
}

/// Where a session stands.
fn status(alloc: Global, at: At, bps: &[u64], mode: Going) -> Result<Body, NoMemory> {
    Ok(Body::Status {
        at,
        bps: listed(alloc, bps)?,
        listeners: listed(alloc, &[0u32, 1])?,
        mode,
    })
}

/// What was accepted, by the number of its case.
fn accepted(alloc: Global, case: u32) -> Result<Body, NoMemory> {
    match case {
        0 => armed(alloc, 1, &[0]),
        1 => armed(alloc, u64::MAX, &[2, 5]),
        2 => Ok(Body::Delete),
        3 => Ok(Body::Continue),
        4 => Ok(Body::Reverse),
        5 => Ok(Body::Step),
        6 => Ok(Body::Back),
        7 => Ok(Body::Bye),
        8 => Ok(Body::Pause {
            at: At::Position { cycle: 3, slot: 2 },
        }),
        9 => Ok(Body::Pause { at: At::End }),
        10 => at_stop(alloc, 8),
        11 => shown(alloc),
        12 => evaluated(),
        13 => Ok(Body::Eval {
            value: Sample::Unknown,
        }),
        14 => dropped(alloc, &[(40, 1)]),
        15 => dropped(alloc, &[]),
        16 => status(alloc, At::Start, &[], Going::Idle),
        17 => status(alloc, At::End, &[1, 3], Going::Backward),
        18 => status(alloc, At::End, &[7], Going::Forward),
        19 => watched(alloc, &[3], 1),
        20 => Ok(Body::Unwatch),
        _ => at_stop(alloc, 1_056_964_616),
    }
}

/// A field that is wrong.
fn bad_shape(alloc: Global, field: &[u8]) -> Result<Body, NoMemory> {
    Ok(Body::BadShape {
        field: name(alloc, field)?,
    })
}

/// A path that no instance has.
fn no_instance(alloc: Global, path: &[u8]) -> Result<Body, NoMemory> {
    Ok(Body::NoInstance {
        instance: name(alloc, path)?,
    })
}

/// A name that is not in scope.
fn not_in_scope(alloc: Global, text: &[u8]) -> Result<Body, NoMemory> {
    Ok(Body::BadCondName {
        name: name(alloc, text)?,
    })
}

/// A name of which nothing was kept.
fn removed(alloc: Global, text: &[u8], slot: u32) -> Result<Body, NoMemory> {
    Ok(Body::CondRemoved {
        name: name(alloc, text)?,
        slot,
    })
}

/// A name that is not assigned.
fn unset(alloc: Global, text: &[u8], slot: u32) -> Result<Body, NoMemory> {
    Ok(Body::CondUnset {
        name: name(alloc, text)?,
        slot,
    })
}

/// What was refused, by the number of its case.
fn refused(alloc: Global, case: u32) -> Result<Body, NoMemory> {
    match case {
        0 => Ok(Body::TooLong),
        1 => Ok(Body::NotJson),
        2 => bad_shape(alloc, b"cmd"),
        3 => bad_shape(alloc, b""),
        4 => Ok(Body::UnknownCmd),
        5 => Ok(Body::NoSite { line: 11 }),
        6 => no_instance(alloc, b"B.x"),
        7 => Ok(Body::BadCondAt { offset: 6 }),
        8 => not_in_scope(alloc, b"zz"),
        9 => not_in_scope(alloc, b"\"\\/\x08\x0c\n\r\t\x01\x1f\x7f\xc3\xa9"),
        10 => removed(alloc, b"u", 5),
        11 => unset(alloc, b"u", 3),
        12 => Ok(Body::Busy {
            mode: Going::Forward,
        }),
        13 => Ok(Body::NotRunning),
        14 => Ok(Body::NoStop { at: At::Start }),
        15 => Ok(Body::TooMany { limit: 1024 }),
        16 => Ok(Body::NoBreakpoint { bp: 7 }),
        17 => Ok(Body::NoListener { k: 2 }),
        18 => Ok(Body::TooManyWatches { limit: 256 }),
        19 => Ok(Body::NoWatch { wp: 9 }),
        _ => Ok(Body::NoSite { line: 16_777_229 }),
    }
}

/// The text of a reply.
fn text_of(
    alloc: Global,
    seq: u64,
    id: Option<u64>,
    body: Result<Body, NoMemory>,
) -> Result<Vec<u8>, NoMemory> {
    let reply = Reply {
        seq,
        id,
        body: body?,
    };
    reply_text(alloc, &reply)
}

/// Whether the text of a reply is this one.
fn is_text(found: Result<Vec<u8>, NoMemory>, text: &str) -> bool {
    match found {
        Ok(found) => found.as_slice() == text.as_bytes(),
        Err(_) => false,
    }
}

#[test]
fn what_was_accepted_is_written(rt: HostRuntime) -> Result<(), Fail> {
    let a = rt.alloc();
    for (seq, id, case, text) in &ACCEPTED {
        assert!(rt; is_text(text_of(a, *seq, *id, accepted(a, *case)), *text));
    }
    Ok(())
}

#[test]
fn what_was_refused_is_written(rt: HostRuntime) -> Result<(), Fail> {
    let a = rt.alloc();
    for (seq, id, case, text) in &REFUSED {
        assert!(rt; is_text(text_of(a, *seq, *id, refused(a, *case)), *text));
    }
    Ok(())
}
