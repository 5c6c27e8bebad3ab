//! Parameters and connections, the two lists between commas.

ghost use Rattle.std.specs.Prelude.{map};
ghost use Rattle.gen_token.specs.Words.{placed};
ghost use Rattle.gen_tree.specs.View.{param_of, conn_of};
ghost use Rattle.gen_text.specs.Faults.{Gives, with_rest};
ghost use Rattle.gen_text.specs.Reading as list;

use crate::fault::ReadFault;
use crate::ints::int;
use crate::tree::expr_tree;
use crate::words::{begins_mark, closed, mark, name, open};
use gen_token::{Mark, Placed, Token};
use gen_tree::{Conn, Dialect, Param};
use std::alloc::Global;
use text_core::Text;

/// The parameter in front, and what follows it.
fn param<'t, 'a>(
    alloc: Global,
    room: usize,
    tokens: &'t [Placed<'a>],
) -> Result<(Param, &'t [Placed<'a>]), ReadFault>
    ensures { Gives (with_rest param_of) result (list.param_at room (placed tokens.now)) }
{
    let (name, rest) = name(tokens)?;
    let rest = mark(rest, Mark::Equals)?;
    let (value, rest) = int(alloc, Dialect::Source, room, rest)?;
    let name = Text::new(alloc, name)?;
    Ok((Param { name, value }, rest))
}

/// The comma in front and the parameter behind it, and what follows them.
fn more_param<'t, 'a>(
    alloc: Global,
    room: usize,
    tokens: &'t [Placed<'a>],
) -> Result<(Param, &'t [Placed<'a>]), ReadFault>
    ensures { Gives (with_rest param_of) result (list.more_param_at room (placed tokens.now)) }
{
    let rest = mark(tokens, Mark::Comma)?;
    param(alloc, room, rest)
}

/// The parameters in brackets in front, or none, and what follows them.
pub(crate) fn params<'t, 'a>(
    alloc: Global,
    room: usize,
    tokens: &'t [Placed<'a>],
) -> Result<(Vec<Param>, &'t [Placed<'a>]), ReadFault>
    ensures { Gives (with_rest (λ all. map param_of all.items)) result (list.params_at room (placed tokens.now)) }
{
    if !begins_mark(tokens, Mark::LeftParen) {
        return Ok((Vec::new(alloc), tokens));
    }
    let rest = open(tokens, Mark::LeftParen, room)?;
    closed(param_list(alloc, room - 1, rest)?, Mark::RightParen)
}

/// One parameter or more, with commas between them, and what follows them.
fn param_list<'t, 'a>(
    alloc: Global,
    room: usize,
    tokens: &'t [Placed<'a>],
) -> Result<(Vec<Param>, &'t [Placed<'a>]), ReadFault>
    ensures { Gives (with_rest (λ all. map param_of all.items)) result (list.param_list_at room (placed tokens.now)) }
{
    let mut all = Vec::new(alloc);
    let (first, mut rest) = param(alloc, room, tokens)?;
    all.push(first)?;
    'turns: while begins_mark(rest, Mark::Comma) {
        let (one, after) = more_param(alloc, room, rest)?;
        all.push(one)?;
        rest = after;
    }
    Ok((all, rest))
}

/// The connection in front, and what follows it.
fn conn<'t, 'a>(
    alloc: Global,
    room: usize,
    tokens: &'t [Placed<'a>],
) -> Result<(Conn, &'t [Placed<'a>]), ReadFault>
    ensures { Gives (with_rest conn_of) result (list.conn_at room (placed tokens.now)) }
{
    match tokens {
        [first, rest @ ..] => match first.token {
            Token::Name(port) => conn_rest(alloc, room, first.line, port, rest),
            _ => Err(ReadFault::At { left: tokens.len() }),
        },
        [] => Err(ReadFault::At { left: 0 }),
    }
}

/// The connection of a port, from behind its name on, and what follows it.
fn conn_rest<'t, 'a>(
    alloc: Global,
    room: usize,
    line: u32,
    port: &[u8],
    tokens: &'t [Placed<'a>],
) -> Result<(Conn, &'t [Placed<'a>]), ReadFault>
    ensures { Gives (with_rest conn_of) result (list.conn_rest_at room line port.now (placed tokens.now)) }
{
    let rest = mark(tokens, Mark::Equals)?;
    let (value, rest) = closed(expr_tree(alloc, room, rest)?, Mark::Semicolon)?;
    let port = Text::new(alloc, port)?;
    Ok((Conn { line, port, value }, rest))
}

/// The connections in braces in front, and what follows them.
pub(crate) fn conns<'t, 'a>(
    alloc: Global,
    room: usize,
    tokens: &'t [Placed<'a>],
) -> Result<(Vec<Conn>, &'t [Placed<'a>]), ReadFault>
    ensures { Gives (with_rest (λ all. map conn_of all.items)) result (list.conns_at room (placed tokens.now)) }
{
    let mut all = Vec::new(alloc);
    let mut rest = open(tokens, Mark::LeftBrace, room)?;
    'turns: while !begins_mark(rest, Mark::RightBrace) {
        let (one, after) = conn(alloc, room - 1, rest)?;
        all.push(one)?;
        rest = after;
    }
    let rest = mark(rest, Mark::RightBrace)?;
    Ok((all, rest))
}
