//! Services over a door, links, files and a sink in memory.

ghost use Rattle.std.specs.Prelude.{◌≡◌, [], ◌∷◌, false, IfOk, IsTrue};
ghost use Rattle.std.specs.List.{list_all};
ghost use Rattle.link_edge.specs.MemoryLinks.{is_fresh_link};

use dbg_app::{Many, address_of, serve};
use io_edge::{MemFiles, MemSink, Words};
use link_edge::{MemDoor, MemLink, Step};
use std::alloc::Global;
use std::sync::Wait;
use std::thread::Threads;
use text_core::{Listed, NoMemory};

/// A design with its statements from line 7 on, and a stimulus of three cycles.
static FILES: [(&str, &str); 2] = [
    (
        "A.hg",
        "module A {\n  input en : 1;\n  input d : 8;\n  output q : 8;\n  wire t : 8;\n  reg r : 8 = 8'h00;\n  comb {\n    t = r;\n    if en {\n      t = (t + d);\n    }\n    q = t;\n  }\n  ff { r <= t; }\n}\n",
    ),
    ("A.stim", "en d\n1 5\n0 9\n1 255\n"),
];

/// What the one client says: a run to the breakpoint on line 10, and then that it leaves.
static SAID: [&str; 4] = [
    "{\"cmd\":\"break\",\"line\":10}",
    "{\"cmd\":\"continue\"}",
    "",
    "{\"cmd\":\"bye\"}",
];

/// What the client is told, in order.
static TOLD: [&str; 4] = [
    "{\"bp\":1,\"ok\":true,\"seq\":1,\"slots\":[2]}",
    "{\"ok\":true,\"seq\":2}",
    "{\"cycle\":0,\"gens\":[],\"line\":10,\"notice\":\"stopped\",\"slot\":2,\"threads\":[\"A\"]}",
    "{\"ok\":true,\"seq\":3}",
];

/// Words, the numbers of the reads and of the puts that fail; the status, how many bytes are taken at least and what they are a front of,
/// whether the client was served, and whether the words have an address.
struct Case {
    words: &'static [&'static str],
    reads: &'static [u64],
    puts: &'static [u64],
    status: u8,
    least: usize,
    text: &'static str,
    served: bool,
    offers: bool,
}

static CASES: [Case; 8] = [
    // The second time no client comes.
    Case {
        words: &["serve", "opt", "A.hg", "A.stim", "here", "2", "A"],
        reads: &[],
        puts: &[],
        status: 0,
        least: 57,
        text: "connection 0 end bye requests 3\nconnection 1 door failed\n",
        served: true,
        offers: true,
    },
    Case {
        words: &["serve", "opt", "A.hg", "A.stim", "here", "17", "A"],
        reads: &[],
        puts: &[],
        status: 2,
        least: 12,
        text: "usage fault\n",
        served: false,
        offers: false,
    },
    Case {
        words: &["serve", "opt", "A.hg", "A.hg", "here", "1", "A"],
        reads: &[],
        puts: &[],
        status: 4,
        least: 32,
        text: "stimulus fault 1 HeaderMismatch\n",
        served: false,
        offers: true,
    },
    Case {
        words: &["serve", "opt", "A.hg", "A.stim", "here", "1", "A"],
        reads: &[1],
        puts: &[],
        status: 7,
        least: 0,
        text: "",
        served: false,
        offers: true,
    },
    Case {
        words: &["serve", "opt", "A.hg", "A.stim", "here", "2", "A"],
        reads: &[],
        puts: &[0],
        status: 8,
        least: 0,
        text: "connection 0 end bye requests 3\n",
        served: true,
        offers: true,
    },
    // All at once, on one session.
    Case {
        words: &["serveall", "opt", "A.hg", "A.stim", "here", "2", "A"],
        reads: &[],
        puts: &[],
        status: 0,
        least: 49,
        text: "client 0 end bye requests 3\nclient 1 door failed\n",
        served: true,
        offers: true,
    },
    Case {
        words: &["serveall", "opt", "A.hg", "A.stim", "here", "9", "A"],
        reads: &[],
        puts: &[],
        status: 2,
        least: 12,
        text: "usage fault\n",
        served: false,
        offers: false,
    },
    Case {
        words: &["serveall", "opt", "A.hg", "A.stim", "here", "8", "A"],
        reads: &[],
        puts: &[0],
        status: 8,
        least: 0,
        text: "client 0 end bye requests 3\n",
        served: true,
        offers: true,
    },
];

pub(crate) fn files_of(alloc: Global, reads: &[u64]) -> Result<MemFiles, NoMemory> {
    let mut files = Vec::new(alloc);
    for (name, text) in &FILES {
        let name = String::from_str(alloc, name)?;
        files.push((name, text.as_bytes().to_vec(alloc)?))?;
    }
    MemFiles::new(alloc, files, reads.to_vec(alloc)?)
}

pub(crate) fn words_of(alloc: Global, words: &[&str]) -> Result<Words, NoMemory> {
    let mut all = Words::new(alloc);
    for word in words {
        all.add(word)?;
    }
    Ok(all)
}

fn script(alloc: Global) -> Result<Vec<Step>, NoMemory> {
    let mut script = Vec::new(alloc);
    for text in &SAID {
        let step = if text.is_empty() {
            Step::Nothing
        } else {
            Step::Message(Listed::new(text.as_bytes().to_vec(alloc)?))
        };
        script.push(step)?;
    }
    Ok(script)
}

/// A door with the one client.
fn door(alloc: Global) -> Result<MemDoor, NoMemory> {
    let link = MemLink::new(alloc, script(alloc)?, Vec::new(alloc))?;
    let mut links = Vec::new(alloc);
    links.push(link)?;
    MemDoor::new(links)
}

/// Whether the lines that were sent, and those that were not behind them, are what the client is told.
fn are_told(sent: &[Listed<u8>], unsent: &[Listed<u8>]) -> bool {
    for (line, want) in sent.iter().chain(unsent).zip(&TOLD) {
        if line.items() != want.as_bytes() {
            return false;
        }
    }
    sent.len() + unsent.len() == TOLD.len()
}

/// Whether the client was served, or nobody.
fn is_served(many: &Many<MemLink>, served: bool) -> bool {
    match (many.served.first(), &many.hub) {
        (Some(first), None) => {
            served && many.served.len() == 1 && are_told(&first.sent, &first.unsent)
        }
        (None, Some(hub)) => match hub.clients.first() {
            Some(first) => {
                served && hub.clients.len() == 1 && are_told(&first.sent, &first.unsent)
            }
            None => false,
        },
        (None, None) => !served,
        (Some(_), Some(_)) => false,
    }
}

/// Whether a service ends as is wanted.
fn is_as_wanted<R: Threads + Wait + Sync>(
    rt: &R,
    alloc: Global,
    case: &Case,
) -> Result<bool, NoMemory> {
    let words = words_of(alloc, case.words)?;
    let mut files = files_of(alloc, case.reads)?;
    let mut out = MemSink::new(alloc, 1_000, case.puts.to_vec(alloc)?)?;
    let mut door = door(alloc)?;
    let many = serve(
        rt,
        alloc,
        &words,
        &mut files,
        &mut out,
        &mut door,
        Vec::new(alloc),
    );
    if many.status == 9 {
        return Err(NoMemory);
    }
    Ok(
        many.status == case.status
            && is_served(&many, case.served)
            && address_of(&words).is_some() == case.offers
            && case.text.as_bytes().starts_with(out.bytes())
            && case.least <= out.bytes().len(),
    )
}

#[test]
fn services_end_as_doors_files_and_sinks_let_them(rt: HostRuntime) {
    for (i, case) in CASES.iter().enumerate() {
        assert!(rt;
            matches!(is_as_wanted(&rt, rt.alloc(), case), Ok(true)),
            "case {i}"
        );
    }
}
