//! The texts of the demo: its design, and its stimulus.

ghost use Rattle.std.specs.Prelude.{◌≡◌, ◌≤◌, ◌<◌, ◌++◌, [], ◌∷◌, pos, IfOk, OnOk};
ghost use Rattle.demo_run.specs.Chain.{chain_source as the_chain_source, chain_stimulus as the_chain_stimulus, chain_top as the_chain_top, row_count, row_line};

use gen_elab::Given;
use std::alloc::Global;
use text_core::NoMemory;

/// How many rows the stimulus has.
const ROWS: u64 = 1000;

/// The source of the design `Chain`, of `N` cells. Takes no memory.
pub(crate) fn chain_source() -> &'static [u8]
    ensures { result.now ≡ the_chain_source }
{
    b"\
module Cell {\n\
\x20 input x : 16;\n\
\x20 output y : 16;\n\
\x20 reg s : 16 = 16'h0000;\n\
\x20 comb {\n\
\x20   y = s;\n\
\x20   if s[0:0] {\n\
\x20     y = (s ^ 16'h8000);\n\
\x20   }\n\
\x20 }\n\
\x20 ff { s <= x; }\n\
}\n\
module Chain(N = 1) {\n\
\x20 input x : 16;\n\
\x20 output y : 16;\n\
\x20 inst c#0 : Cell { x = x; }\n\
\x20 for i in 1..N {\n\
\x20   inst c#i : Cell { x = c#(i - 1).y; }\n\
\x20 }\n\
\x20 comb { y = c#(N - 1).y; }\n\
}\n"
}

/// What its top is given: the number of cells.
pub(crate) fn chain_given(alloc: Global, number: u16) -> Result<Given, NoMemory>
    ensures { IfOk result (λ given. given ≡ (the_chain_top number).given) }
{
    let mut given = Given::new(alloc);
    given.add(b"N", i64::from(number))?;
    Ok(given)
}

/// Adds the row of a cycle.
fn push_row(alloc: Global, text: &mut Vec<u8>, row: u64) -> Result<(), NoMemory>
    ensures { OnOk result (text.new.items ≡ text.old.items ++ row_line row) }
{
    let digits = format!(in alloc; "{row}")?;
    text.extend_from_slice(digits.as_bytes())?;
    text.push(b'\n')?;
    Ok(())
}

/// The stimulus: a row for each of 1,000 cycles, with its number.
pub(crate) fn chain_stimulus(alloc: Global) -> Result<Vec<u8>, NoMemory>
    ensures { IfOk result (λ text. text.items ≡ the_chain_stimulus row_count) }
{
    let mut text = b"x\n".to_vec(alloc)?;
    for row in 0..ROWS {
        push_row(alloc, &mut text, row)?;
    }
    Ok(text)
}
