//! A session of some length over a sink of which each put fails in turn.

ghost use Rattle.std.specs.Prelude.{◌≤◌, length, IfOk};

use dbg_app::run;
use io_edge::{MemFiles, MemSink, Words};
use listen::{CycleHits, LineHits, Listener};
use std::alloc::Global;
use std::test::Fail;
use text_core::NoMemory;

static WORDS: [&str; 6] = ["debug", "opt", "Rr.hg", "Rr.stim", "Rr.req", "Rr"];

/// Four lanes that count their grants, two hundred cycles, and requests that stop at lanes and at their total.
static FILES: [(&str, &str); 3] = [
    (
        "Rr.hg",
        "\
     // Lanes count their grants; the turn goes round.\n\
     module Lane(W = 8) {\n\
     \x20 input ask : 1;\n\
     \x20 input turn : 2;\n\
     \x20 input id : 2;\n\
     \x20 output got : 1;\n\
     \x20 output sum : W;\n\
     \x20 reg n : W = bits(W, 0);\n\
     \x20 comb {\n\
     \x20   got = 1'h0;\n\
     \x20   if (turn == id) {\n\
     \x20     got = ask;\n\
     \x20   }\n\
     \x20   sum = n;\n\
     \x20 }\n\
     \x20 ff {\n\
     \x20   if got {\n\
     \x20     n <= (n + bits(W, 1));\n\
     \x20   }\n\
     \x20 }\n\
     }\n\
     module Rr(LANES = 4) {\n\
     \x20 input ask : LANES;\n\
     \x20 output total : 10;\n\
     \x20 reg turn : 2 = 2'h0;\n\
     \x20 for i in 0..LANES {\n\
     \x20   inst lane#i : Lane {\n\
     \x20     ask = ask[i:i];\n\
     \x20     turn = turn;\n\
     \x20     id = bits(2, i);\n\
     \x20   }\n\
     \x20 }\n\
     \x20 comb {\n\
     \x20   total = 10'd0;\n\
     \x20   for i in 0..LANES {\n\
     \x20     total = (total + zext(lane#i.sum, 10));\n\
     \x20   }\n\
     \x20 }\n\
     \x20 ff { turn <= (turn + 2'd1); }\n\
     }\n",
    ),
    (
        "Rr.stim",
        "ask\n\
     15\n15\n15\n15\n15\n15\n15\n15\n15\n15\n15\n15\n15\n15\n15\n15\n15\n15\n15\n15\n15\n15\n15\n15\n15\n15\n15\n15\n15\n15\n15\n15\n15\n15\n15\n15\n15\n15\n15\n15\n\
     15\n15\n15\n15\n15\n15\n15\n15\n15\n15\n15\n15\n15\n15\n15\n15\n15\n15\n15\n15\n15\n15\n15\n15\n15\n15\n15\n15\n15\n15\n15\n15\n15\n15\n15\n15\n15\n15\n15\n15\n\
     15\n15\n15\n15\n15\n15\n15\n15\n15\n15\n15\n15\n15\n15\n15\n15\n15\n15\n15\n15\n15\n15\n15\n15\n15\n15\n15\n15\n15\n15\n15\n15\n15\n15\n15\n15\n15\n15\n15\n15\n\
     15\n15\n15\n15\n15\n15\n15\n15\n15\n15\n15\n15\n15\n15\n15\n15\n15\n15\n15\n15\n15\n15\n15\n15\n15\n15\n15\n15\n15\n15\n15\n15\n15\n15\n15\n15\n15\n15\n15\n15\n\
     15\n15\n15\n15\n15\n15\n15\n15\n15\n15\n15\n15\n15\n15\n15\n15\n15\n15\n15\n15\n15\n15\n15\n15\n15\n15\n15\n15\n15\n15\n15\n15\n15\n15\n15\n15\n15\n15\n15\n15\n",
    ),
    (
        "Rr.req",
        "\
     {\"cmd\":\"break\",\"line\":18,\"cond\":\"(n == 8'd10)\"}\n\
     {\"cmd\":\"break\",\"line\":39,\"cond\":\"(total == 10'd100)\"}\n\
     {\"cmd\":\"continue\"}\n\
     {\"cmd\":\"drop\",\"k\":1}\n\
     {\"cmd\":\"continue\"}\n\
     {\"cmd\":\"continue\"}\n\
     {\"cmd\":\"continue\"}\n\
     {\"cmd\":\"continue\"}\n\
     {\"cmd\":\"continue\"}\n",
    ),
];

/// What the session puts out.
const TEXT: &str = "\
     {\"bp\":1,\"ok\":true,\"seq\":1,\"slots\":[5]}\n\
     {\"bp\":2,\"ok\":true,\"seq\":2,\"slots\":[11]}\n\
     {\"ok\":true,\"seq\":3}\n\
     {\"cycle\":40,\"gens\":[[\"W\",8]],\"line\":18,\"notice\":\"stopped\",\"slot\":5,\"threads\":[\"Rr.lane#0\"]}\n\
     {\"ok\":true,\"rows\":[[40,1]],\"seq\":4}\n\
     {\"ok\":true,\"seq\":5}\n\
     {\"cycle\":41,\"gens\":[[\"W\",8]],\"line\":18,\"notice\":\"stopped\",\"slot\":5,\"threads\":[\"Rr.lane#1\"]}\n\
     {\"ok\":true,\"seq\":6}\n\
     {\"cycle\":42,\"gens\":[[\"W\",8]],\"line\":18,\"notice\":\"stopped\",\"slot\":5,\"threads\":[\"Rr.lane#2\"]}\n\
     {\"ok\":true,\"seq\":7}\n\
     {\"cycle\":43,\"gens\":[[\"W\",8]],\"line\":18,\"notice\":\"stopped\",\"slot\":5,\"threads\":[\"Rr.lane#3\"]}\n\
     {\"ok\":true,\"seq\":8}\n\
     {\"cycle\":100,\"gens\":[[\"LANES\",4]],\"line\":39,\"notice\":\"stopped\",\"slot\":11,\"threads\":[\"Rr\"]}\n\
     {\"ok\":true,\"seq\":9}\n\
     {\"notice\":\"ended\"}\n\
     {\"k\":0,\"notice\":\"rows\",\"rows\":[[18,4],[39,1]]}\n";

/// The two listeners of the program: the first counts stops by line, the second by cycle.
fn listeners(alloc: Global) -> Result<Vec<Box<dyn Listener>>, NoMemory>
    ensures { IfOk result (λ listeners. length listeners.items ≤ 2) }
{
    let mut listeners: Vec<Box<dyn Listener>> = Vec::new(alloc);
    let lines = LineHits::new(alloc)?;
    listeners.push(Box::new(alloc, lines)?)?;
    let cycles = CycleHits::new(alloc)?;
    listeners.push(Box::new(alloc, cycles)?)?;
    Ok(listeners)
}

fn files(alloc: Global) -> Result<MemFiles, NoMemory> {
    let mut files = Vec::new(alloc);
    for (name, text) in &FILES {
        let name = String::from_str(alloc, name)?;
        files.push((name, text.as_bytes().to_vec(alloc)?))?;
    }
    MemFiles::new(alloc, files, Vec::new(alloc))
}

fn words(alloc: Global) -> Result<Words, NoMemory> {
    let mut words = Words::new(alloc);
    for word in &WORDS {
        words.add(word)?;
    }
    Ok(words)
}

/// The status of the session and the sink that it leaves, of which these puts fail.
fn outcome_of(alloc: Global, puts: &[u64]) -> Result<(u8, MemSink), NoMemory> {
    let words = words(alloc)?;
    let mut files = files(alloc)?;
    let mut out = MemSink::new(alloc, 100_000, puts.to_vec(alloc)?)?;
    let listeners = listeners(alloc)?;
    let ended = run(alloc, &words, &mut files, &mut out, listeners);
    Ok((ended.status, out))
}

#[test]
fn each_put_of_a_session_fails_in_turn(rt: HostRuntime) -> Result<(), Fail> {
    let Ok((status, out)) = outcome_of(rt.alloc(), &[]) else {
        return Err("memory lasts".into());
    };
    assert!(rt; status == 0 && out.bytes() == TEXT.as_bytes());
    for put in 0..100 {
        let Ok((status, out)) = outcome_of(rt.alloc(), &[put]) else {
            return Err("memory lasts".into());
        };
        if status == 0 {
            assert!(rt; put > 0 && out.bytes() == TEXT.as_bytes(), "put {put}");
            return Ok(());
        }
        assert!(rt;
            status == 8
                && TEXT.as_bytes().starts_with(out.bytes())
                && out.bytes().len() < TEXT.len(),
            "put {put}"
        );
    }
    Err("it puts less than a hundred times".into())
}
