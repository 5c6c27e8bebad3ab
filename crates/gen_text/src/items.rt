//! What stands in a module behind its ports. The first token decides what is read.

ghost use Rattle.std.specs.Prelude.{◌≡◌, true, false};
ghost use Rattle.gen_token.specs.Words.{placed};
ghost use Rattle.gen_tree.specs.View.{item_of, items_of, else_items_of};
ghost use Rattle.gen_text.specs.Faults.{Gives, with_rest};
ghost use Rattle.gen_text.specs.Reading as list;

use crate::exprs::lit;
use crate::fault::ReadFault;
use crate::ints::{fam, int};
use crate::members::{conns, params};
use crate::stmts::{block, given, turns};
use crate::words::{begins_keyword, begins_mark, closed, mark, open};
use gen_token::{Keyword, Mark, Placed, Token};
use gen_tree::{Dialect, Item};
use std::alloc::Global;
use text_core::Text;

/// The item in front, and what follows it. `room` brackets may still be opened.
#[cycle(items)]
pub(crate) fn item<'t, 'a>(
    alloc: Global,
    room: usize,
    tokens: &'t [Placed<'a>],
) -> Result<(Item, &'t [Placed<'a>]), ReadFault>
    ensures { Gives (with_rest item_of) result (list.item_step room (list.inner_items room) (placed tokens.now)) }
{
    match tokens {
        [first, rest @ ..] => match first.token {
            Token::Keyword(Keyword::Wire) => wire(alloc, room, first.line, rest),
            Token::Keyword(Keyword::Reg) => reg(alloc, room, first.line, rest),
            Token::Keyword(Keyword::Inst) => inst(alloc, room, first.line, rest),
            Token::Keyword(Keyword::Comb) => comb(alloc, room, first.line, rest),
            Token::Keyword(Keyword::Ff) => ff(alloc, room, first.line, rest),
            Token::Keyword(Keyword::For) => repeat(alloc, room, first.line, rest),
            Token::Keyword(Keyword::Gen) => generate(alloc, room, first.line, rest),
            _ => Err(ReadFault::At { left: tokens.len() }),
        },
        [] => Err(ReadFault::At { left: 0 }),
    }
}

/// What stands behind `wire`, and what follows it.
#[tactic(auto, using(gen_tree::proofs::Views::view_steps))]
fn wire<'t, 'a>(
    alloc: Global,
    room: usize,
    line: u32,
    tokens: &'t [Placed<'a>],
) -> Result<(Item, &'t [Placed<'a>]), ReadFault>
    ensures { Gives (with_rest item_of) result (list.wire_at room line (placed tokens.now)) }
{
    let (name, rest) = closed(fam(alloc, room, tokens)?, Mark::Colon)?;
    let (width, rest) = closed(int(alloc, Dialect::Source, room, rest)?, Mark::Semicolon)?;
    Ok((Item::Wire { line, name, width }, rest))
}

/// What stands behind `reg`, and what follows it.
#[tactic(auto, using(gen_tree::proofs::Views::view_steps))]
fn reg<'t, 'a>(
    alloc: Global,
    room: usize,
    line: u32,
    tokens: &'t [Placed<'a>],
) -> Result<(Item, &'t [Placed<'a>]), ReadFault>
    ensures { Gives (with_rest item_of) result (list.reg_at room line (placed tokens.now)) }
{
    let (name, rest) = closed(fam(alloc, room, tokens)?, Mark::Colon)?;
    let (width, rest) = closed(int(alloc, Dialect::Source, room, rest)?, Mark::Equals)?;
    let (start, rest) = closed(lit(alloc, Dialect::Source, room, rest)?, Mark::Semicolon)?;
    let reg = Item::Reg {
        line,
        name,
        width,
        start,
    };
    Ok((reg, rest))
}

/// What stands behind `inst`, and what follows it.
#[tactic(auto, using(gen_tree::proofs::Views::view_steps))]
fn inst<'t, 'a>(
    alloc: Global,
    room: usize,
    line: u32,
    tokens: &'t [Placed<'a>],
) -> Result<(Item, &'t [Placed<'a>]), ReadFault>
    ensures { Gives (with_rest item_of) result (list.inst_at room line (placed tokens.now)) }
{
    let (name, rest) = closed(fam(alloc, room, tokens)?, Mark::Colon)?;
    let (module, rest) = crate::words::name(rest)?;
    let (args, rest) = params(alloc, room, rest)?;
    let (conns, rest) = conns(alloc, room, rest)?;
    let module = Text::new(alloc, module)?;
    let inst = Item::Inst {
        line,
        name,
        module,
        args,
        conns,
    };
    Ok((inst, rest))
}

/// What stands behind `comb`, and what follows it.
#[tactic(auto, using(gen_tree::proofs::Views::view_steps))]
fn comb<'t, 'a>(
    alloc: Global,
    room: usize,
    line: u32,
    tokens: &'t [Placed<'a>],
) -> Result<(Item, &'t [Placed<'a>]), ReadFault>
    ensures { Gives (with_rest item_of) result (list.block_at false room line (placed tokens.now)) }
{
    let (body, rest) = block(alloc, false, room, tokens)?;
    Ok((Item::Comb { line, body }, rest))
}

/// What stands behind `ff`, and what follows it.
#[tactic(auto, using(gen_tree::proofs::Views::view_steps))]
fn ff<'t, 'a>(
    alloc: Global,
    room: usize,
    line: u32,
    tokens: &'t [Placed<'a>],
) -> Result<(Item, &'t [Placed<'a>]), ReadFault>
    ensures { Gives (with_rest item_of) result (list.block_at true room line (placed tokens.now)) }
{
    let (body, rest) = block(alloc, true, room, tokens)?;
    Ok((Item::Ff { line, body }, rest))
}

/// What stands behind `for`, and what follows it.
#[cycle(items)]
#[tactic(auto, using(gen_tree::proofs::Views::view_steps))]
fn repeat<'t, 'a>(
    alloc: Global,
    room: usize,
    line: u32,
    tokens: &'t [Placed<'a>],
) -> Result<(Item, &'t [Placed<'a>]), ReadFault>
    ensures { Gives (with_rest item_of) result (list.for_item_at room (list.inner_items room) line (placed tokens.now)) }
{
    let ((var, from, to), rest) = turns(alloc, room, tokens)?;
    let (body, rest) = item_block(alloc, room, rest)?;
    let repeat = Item::For {
        line,
        var,
        from,
        to,
        body,
    };
    Ok((repeat, rest))
}

/// What stands behind `gen`, and what follows it.
#[cycle(items)]
#[tactic(auto, using(gen_tree::proofs::Views::view_steps))]
fn generate<'t, 'a>(
    alloc: Global,
    room: usize,
    line: u32,
    tokens: &'t [Placed<'a>],
) -> Result<(Item, &'t [Placed<'a>]), ReadFault>
    ensures { Gives (with_rest item_of) result (list.gen_item_at room (list.inner_items room) line (placed tokens.now)) }
{
    let ((left, cmp, right), rest) = given(alloc, room, tokens)?;
    let (yes, rest) = item_block(alloc, room, rest)?;
    let (no, rest) = otherwise(alloc, room, rest)?;
    let generate = Item::GenIf {
        line,
        left,
        cmp,
        right,
        yes,
        no,
    };
    Ok((generate, rest))
}

/// An `else` with its items, or none, and what follows it.
#[cycle(items)]
fn otherwise<'t, 'a>(
    alloc: Global,
    room: usize,
    tokens: &'t [Placed<'a>],
) -> Result<(Option<Vec<Item>>, &'t [Placed<'a>]), ReadFault>
    ensures { Gives (with_rest else_items_of) result (list.else_items_at room (list.inner_items room) (placed tokens.now)) }
{
    if !begins_keyword(tokens, Keyword::Else) {
        return Ok((None, tokens));
    }
    let (no, rest) = item_block(alloc, room, &tokens[1..])?;
    Ok((Some(no), rest))
}

/// The items in braces in front, and what follows them.
#[cycle(items)]
fn item_block<'t, 'a>(
    alloc: Global,
    room: usize,
    tokens: &'t [Placed<'a>],
) -> Result<(Vec<Item>, &'t [Placed<'a>]), ReadFault>
    ensures { Gives (with_rest (λ all. items_of all.items)) result (list.body_by room (list.inner_items room) (placed tokens.now)) }
{
    let mut all = Vec::new(alloc);
    let mut rest = open(tokens, Mark::LeftBrace, room)?;
    'turns: while !begins_mark(rest, Mark::RightBrace) {
        let (one, after) = item(alloc, room - 1, rest)?;
        all.push(one)?;
        rest = after;
    }
    let rest = mark(rest, Mark::RightBrace)?;
    Ok((all, rest))
}
