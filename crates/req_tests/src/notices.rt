//! Notices: the bytes of each.

use listen::StopNote;
use machine_core::Notice;
use req_json::notice_text;
use std::alloc::Global;
use std::test::Fail;
use text_core::{Listed, NoMemory, Text};

/// The notice of a stop with one generator variable and two threads.
fn stopped(alloc: Global, variable: i64) -> Result<Notice, NoMemory> {
    let mut gens = Vec::new(alloc);
    gens.push((Text::new(alloc, b"W")?, variable))?;
    let mut paths = Vec::new(alloc);
    paths.push(Text::new(alloc, b"C.u#0")?)?;
    paths.push(Text::new(alloc, b"C.u#1")?)?;
    Ok(Notice::Stopped {
        note: StopNote {
            cycle: 2,
            slot: 5,
            line: 8,
            threads: 2,
            watches: 0,
        },
        gens: Listed::new(gens),
        paths: Listed::new(paths),
        watches: Listed::new(Vec::new(alloc)),
    })
}

/// The notice of a stop at this place with no generator variable, where these watches match.
fn stopped_plainly(alloc: Global, line: u32, matching: &[u64]) -> Result<Notice, NoMemory> {
    let mut watches = Vec::new(alloc);
    for wp in matching {
        watches.push(*wp)?;
    }
    let mut paths = Vec::new(alloc);
    paths.push(Text::new(alloc, b"A")?)?;
    Ok(Notice::Stopped {
        note: StopNote {
            cycle: 2,
            slot: 3,
            line,
            threads: 1,
            watches: u32::try_from(watches.len()).unwrap_or(0),
        },
        gens: Listed::new(Vec::new(alloc)),
        paths: Listed::new(paths),
        watches: Listed::new(watches),
    })
}

/// The last pairs of a listener.
fn rows(alloc: Global, k: u32, all: &[(u64, u64)]) -> Result<Notice, NoMemory> {
    let mut list = Vec::new(alloc);
    for pair in all {
        list.push(*pair)?;
    }
    Ok(Notice::Rows {
        k,
        rows: Listed::new(list),
    })
}

static NOTICES: [&str; 8] = [
    "{\"cycle\":2,\"gens\":[],\"line\":12,\"notice\":\"stopped\",\"slot\":3,\"threads\":[\"A\"]}",
    "{\"cycle\":2,\"gens\":[[\"W\",-4611686018427387904]],\"line\":8,\"notice\":\"stopped\",\"slot\":5,\"threads\":[\"C.u#0\",\"C.u#1\"]}",
    "{\"notice\":\"ended\"}",
    "{\"notice\":\"start\"}",
    "{\"k\":0,\"notice\":\"rows\",\"rows\":[[18,4],[39,1]]}",
    "{\"k\":1,\"notice\":\"rows\",\"rows\":[]}",
    "{\"cycle\":2,\"gens\":[],\"line\":12,\"notice\":\"stopped\",\"slot\":3,\"threads\":[\"A\"],\"watches\":[1]}",
    "{\"cycle\":2,\"file\":1,\"gens\":[],\"line\":13,\"notice\":\"stopped\",\"slot\":3,\"threads\":[\"A\"]}",
];

/// A notice, by the place of its text.
fn notice(alloc: Global, case: usize) -> Result<Notice, NoMemory> {
    match case {
        0 => stopped_plainly(alloc, 12, &[]),
        1 => stopped(alloc, -4611686018427387904),
        2 => Ok(Notice::Ended),
        3 => Ok(Notice::Start),
        4 => rows(alloc, 0, &[(18, 4), (39, 1)]),
        5 => rows(alloc, 1, &[]),
        6 => stopped_plainly(alloc, 12, &[1]),
        _ => stopped_plainly(alloc, 16_777_229, &[]),
    }
}

/// Whether the text of a notice is this one.
fn is_written(alloc: Global, case: usize, text: &str) -> bool {
    let Ok(notice) = notice(alloc, case) else {
        return false;
    };
    match notice_text(alloc, &notice) {
        Ok(found) => found.as_slice() == text.as_bytes(),
        Err(_) => false,
    }
}

#[test]
fn each_notice_is_written(rt: HostRuntime) -> Result<(), Fail> {
    for (case, text) in NOTICES.iter().enumerate() {
        assert!(rt; is_written(rt.alloc(), case, *text));
    }
    Ok(())
}
