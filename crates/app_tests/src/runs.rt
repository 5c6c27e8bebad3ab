//! Runs over files of which some reads fail, and over sinks of which some puts fail.

use dbg_app::run;
use io_edge::{MemFiles, MemSink, Words};
use std::alloc::Global;
use text_core::NoMemory;

/// The files: a design of two statements, one whose trail is longer than a sink is handed at once, a stimulus of one cycle, and requests;
/// symbols without statements, a trace of one cycle, and a request.
static FILES: [(&str, &str); 7] = [
    (
        "P.hg",
        "module P { input a : 4; output y : 4; wire t : 4; comb { t = (a + 4'h1); y = (t ^ a); } }",
    ),
    (
        "L.hg",
        "module L { input a : 4; for i in 0..64 { wire w#i : 128; } comb { for i in 0..64 { w#i = 128'h0; } } }",
    ),
    ("P.stim", "a\n15\n"),
    (
        "P.req",
        "{\"cmd\":\"break\",\"line\":1}\n{\"cmd\":\"continue\"}\n",
    ),
    (
        "T.json",
        "{\"instances\":[[\"T\",0]],\"nodes\":[],\"slots\":[],\"top\":\"T\",\"variants\":[[\"T\",[]]],\"version\":1}\n",
    ),
    (
        "T.vcd",
        "$scope module T $end $var wire 1 ! clk $end $upscope $end $enddefinitions $end #0 0! #5 1!",
    ),
    ("T.req", "{\"cmd\":\"continue\"}\n"),
];

/// Room for every text of these tests.
const AMPLE: usize = 1_000_000;

/// Words, the numbers of the reads and of the puts that fail, and the room of the sink; the status, how many bytes are taken at
/// least, what they begin with, and the files that are asked for.
#[derive(Drop)]
struct Case {
    words: &'static [&'static str],
    reads: &'static [u64],
    puts: &'static [u64],
    room: usize,
    status: u8,
    least: usize,
    front: &'static str,
    asked: &'static [&'static str],
}

static CASES: [Case; 26] = [
    Case {
        words: &["trail", "keep", "P.hg", "P.stim", "P"],
        reads: &[],
        puts: &[],
        room: AMPLE,
        status: 0,
        least: 57,
        front: "0 1 P a=4'hf y=unset t=unset\n0 1 P a=4'hf y=unset t=4'h0\n",
        asked: &["P.hg", "P.stim"],
    },
    Case {
        words: &["compile", "opt", "P.hg", "P"],
        reads: &[],
        puts: &[],
        room: AMPLE,
        status: 0,
        least: 200,
        front: "module \\P (clk, \\a , \\y );\n",
        asked: &["P.hg"],
    },
    Case {
        words: &["sim", "opt", "P.hg", "P.stim", "P"],
        reads: &[],
        puts: &[],
        room: AMPLE,
        status: 0,
        least: 200,
        front: "$timescale 1ns $end\n$scope module P $end\n$var wire 1 ! clk $end\n",
        asked: &["P.hg", "P.stim"],
    },
    Case {
        words: &[],
        reads: &[],
        puts: &[],
        room: AMPLE,
        status: 2,
        least: 12,
        front: "usage fault\n",
        asked: &[],
    },
    Case {
        words: &["trail", "keep", "P.hg", "P.stim", "Q"],
        reads: &[],
        puts: &[],
        room: AMPLE,
        status: 3,
        least: 43,
        front: "design fault 5 UnknownModule line 0 name Q\n",
        asked: &["P.hg"],
    },
    // One file is the source and the stimulus: it is asked for twice.
    Case {
        words: &["trail", "keep", "P.hg", "P.hg", "P"],
        reads: &[],
        puts: &[],
        room: AMPLE,
        status: 4,
        least: 32,
        front: "stimulus fault 1 HeaderMismatch\n",
        asked: &["P.hg", "P.hg"],
    },
    // A file that is not read, or not there, ends the run before a byte is written.
    Case {
        words: &["trail", "keep", "P.hg", "P.stim", "P"],
        reads: &[0],
        puts: &[],
        room: AMPLE,
        status: 7,
        least: 0,
        front: "",
        asked: &["P.hg"],
    },
    Case {
        words: &["trail", "keep", "P.hg", "P.stim", "P"],
        reads: &[1],
        puts: &[],
        room: AMPLE,
        status: 7,
        least: 0,
        front: "",
        asked: &["P.hg", "P.stim"],
    },
    Case {
        words: &["trail", "keep", "other", "P.stim", "P"],
        reads: &[],
        puts: &[],
        room: AMPLE,
        status: 7,
        least: 0,
        front: "",
        asked: &["other"],
    },
    Case {
        words: &["trail", "keep", "P.hg", "other", "P"],
        reads: &[],
        puts: &[],
        room: AMPLE,
        status: 7,
        least: 0,
        front: "",
        asked: &["P.hg", "other"],
    },
    // A sink that fails ends the run within the text.
    Case {
        words: &["trail", "keep", "P.hg", "P.stim", "P"],
        reads: &[],
        puts: &[0],
        room: AMPLE,
        status: 8,
        least: 5,
        front: "0 1 P",
        asked: &["P.hg", "P.stim"],
    },
    Case {
        words: &["trail", "keep", "P.hg", "P.stim", "P"],
        reads: &[],
        puts: &[],
        room: 10,
        status: 8,
        least: 0,
        front: "",
        asked: &["P.hg", "P.stim"],
    },
    Case {
        words: &[],
        reads: &[],
        puts: &[0],
        room: AMPLE,
        status: 8,
        least: 0,
        front: "",
        asked: &[],
    },
    Case {
        words: &["compile", "opt", "P.hg", "P"],
        reads: &[],
        puts: &[0],
        room: AMPLE,
        status: 8,
        least: 27,
        front: "module \\P (clk, \\a , \\y );\n",
        asked: &["P.hg"],
    },
    // A session over a design, and one over a trace.
    Case {
        words: &["debug", "keep", "P.hg", "P.stim", "P.req", "P"],
        reads: &[],
        puts: &[],
        room: AMPLE,
        status: 0,
        least: 136,
        front: "{\"bp\":1,\"ok\":true,\"seq\":1,\"slots\":[0,1]}\n{\"ok\":true,\"seq\":2}\n{\"cycle\":0,\"gens\":[],\"line\":1,",
        asked: &["P.hg", "P.stim", "P.req"],
    },
    Case {
        words: &["replay", "T.json", "T.vcd", "T", "T.req"],
        reads: &[],
        puts: &[],
        room: AMPLE,
        status: 0,
        least: 39,
        front: "{\"ok\":true,\"seq\":1}\n{\"notice\":\"ended\"}\n",
        asked: &["T.json", "T.vcd", "T.req"],
    },
    Case {
        words: &["replay", "T.json", "T.vcd", "Z", "T.req"],
        reads: &[],
        puts: &[],
        room: AMPLE,
        status: 5,
        least: 21,
        front: "bind fault 1 NoScope\n",
        asked: &["T.json", "T.vcd"],
    },
    Case {
        words: &["replay", "T.vcd", "T.vcd", "T", "T.req"],
        reads: &[],
        puts: &[],
        room: AMPLE,
        status: 5,
        least: 22,
        front: "table fault 1 NotJson\n",
        asked: &["T.vcd"],
    },
    Case {
        words: &["debug", "keep", "P.hg", "P.stim", "P.req", "P"],
        reads: &[0],
        puts: &[],
        room: AMPLE,
        status: 7,
        least: 0,
        front: "",
        asked: &["P.hg"],
    },
    Case {
        words: &["debug", "keep", "P.hg", "P.stim", "P.req", "P"],
        reads: &[1],
        puts: &[],
        room: AMPLE,
        status: 7,
        least: 0,
        front: "",
        asked: &["P.hg", "P.stim"],
    },
    Case {
        words: &["debug", "keep", "P.hg", "P.stim", "P.req", "P"],
        reads: &[2],
        puts: &[],
        room: AMPLE,
        status: 7,
        least: 0,
        front: "",
        asked: &["P.hg", "P.stim", "P.req"],
    },
    Case {
        words: &["replay", "T.json", "T.vcd", "T", "T.req"],
        reads: &[0],
        puts: &[],
        room: AMPLE,
        status: 7,
        least: 0,
        front: "",
        asked: &["T.json"],
    },
    Case {
        words: &["replay", "T.json", "T.vcd", "T", "T.req"],
        reads: &[1],
        puts: &[],
        room: AMPLE,
        status: 7,
        least: 0,
        front: "",
        asked: &["T.json", "T.vcd"],
    },
    Case {
        words: &["replay", "T.json", "T.vcd", "T", "T.req"],
        reads: &[2],
        puts: &[],
        room: AMPLE,
        status: 7,
        least: 0,
        front: "",
        asked: &["T.json", "T.vcd", "T.req"],
    },
    Case {
        words: &["replay", "T.json", "T.vcd", "T", "T.req"],
        reads: &[],
        puts: &[0],
        room: AMPLE,
        status: 8,
        least: 19,
        front: "{\"ok\":true,\"seq\":1",
        asked: &["T.json", "T.vcd", "T.req"],
    },
    // A sink that fails late has taken the lines before.
    Case {
        words: &["trail", "keep", "L.hg", "P.stim", "L"],
        reads: &[],
        puts: &[1],
        room: AMPLE,
        status: 8,
        least: 65_537,
        front: "0 1 L i=0 a=4'hf w#0=unset w#1=unset",
        asked: &["L.hg", "P.stim"],
    },
];

/// The status that a run ends with, and the files and the sink that it leaves.
#[derive(Drop)]
struct Outcome {
    status: u8,
    files: MemFiles,
    out: MemSink,
}

/// The files, of which these reads fail.
fn files_of(alloc: Global, reads: &[u64]) -> Result<MemFiles, NoMemory> {
    let mut files = Vec::new(alloc);
    for (name, text) in &FILES {
        let name = String::from_str(alloc, name)?;
        files.push((name, text.as_bytes().to_vec(alloc)?))?;
    }
    MemFiles::new(alloc, files, reads.to_vec(alloc)?)
}

/// Runs the program over files of which these reads fail, and over a sink of this room of which these puts fail.
fn outcome_of(
    alloc: Global,
    words: &[&str],
    reads: &[u64],
    puts: &[u64],
    room: usize,
) -> Result<Outcome, NoMemory> {
    let mut all = Words::new(alloc);
    for word in words {
        all.add(word)?;
    }
    let mut files = files_of(alloc, reads)?;
    let mut out = MemSink::new(alloc, room, puts.to_vec(alloc)?)?;
    let ended = run(alloc, &all, &mut files, &mut out, Vec::new(alloc));
    Ok(Outcome {
        status: ended.status,
        files,
        out,
    })
}

/// Whether the files that were asked for are these, in this order.
fn has_asked(files: &MemFiles, asked: &[&str]) -> bool {
    for (found, name) in files.asked().iter().zip(asked) {
        if found.as_str() != *name {
            return false;
        }
    }
    files.asked().len() == asked.len()
}

/// Whether what is taken is a front of the text that is written where nothing fails, and is as is wanted. Where the sink fails
/// it is not the whole, and where a file is not read it is nothing.
fn takes_front(case: &Case, whole: &[u8], taken: &[u8]) -> bool {
    whole.starts_with(taken)
        && taken.starts_with(case.front.as_bytes())
        && case.least <= taken.len()
        && (case.status != 8 || taken.len() < whole.len())
        && (case.status != 7 || taken.is_empty())
}

/// Whether a run ends as is wanted.
fn is_as_wanted(alloc: Global, case: &Case) -> Result<bool, NoMemory> {
    let whole = outcome_of(alloc, case.words, &[], &[], AMPLE)?;
    let found = outcome_of(alloc, case.words, case.reads, case.puts, case.room)?;
    if whole.status == 9 || found.status == 9 {
        return Err(NoMemory);
    }
    Ok(
        found.status == case.status
            && takes_front(case, whole.out.bytes(), found.out.bytes())
            && has_asked(&found.files, case.asked),
    )
}

#[test]
fn runs_end_as_files_and_sinks_let_them(rt: HostRuntime) {
    for (i, case) in CASES.iter().enumerate() {
        assert!(rt;
            matches!(is_as_wanted(rt.alloc(), case), Ok(true)),
            "case {i}"
        );
    }
}
