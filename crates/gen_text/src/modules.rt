//! Modules and their ports.

ghost use Rattle.std.specs.Prelude.{◌≡◌, ◌<◌, map, IfOk};
ghost use Rattle.gen_token.specs.Words.{placed, word_of};
ghost use Rattle.gen_tree.specs.View.{port_of, items_of, module_of, modules_of};
ghost use Rattle.gen_text.specs.Faults.{Gives, with_rest};
ghost use Rattle.gen_text.specs.Forms.{port_form};
ghost use Rattle.gen_text.specs.Reading as list;

use crate::fault::ReadFault;
use crate::ints::int;
use crate::items::item;
use crate::members::params;
use crate::words::{begins_mark, closed, is_keyword, mark, name, open};
use gen_token::{Keyword, Mark, Placed, Token};
use gen_tree::{Dialect, Item, Module, Port};
use std::alloc::Global;
use text_core::Text;

/// The brackets that may be open at once.
const ROOM: usize = 64;

/// Whether a token says that a port is an output; None if no port begins with it.
fn direction_of(token: Token<'_>) -> Option<bool>
    ensures { result ≡ port_form (word_of token.entry) }
{
    match token {
        Token::Keyword(Keyword::Output) => Some(true),
        Token::Keyword(Keyword::Input) => Some(false),
        _ => None,
    }
}

/// Whether a port begins in front.
fn begins_port(tokens: &[Placed<'_>]) -> bool
    ensures { result ≡ list.begins_port (placed tokens.now) }
{
    match tokens {
        [first, ..] => direction_of(first.token).is_some(),
        [] => false,
    }
}

/// The port in front, and what follows it.
fn port<'t, 'a>(
    alloc: Global,
    room: usize,
    tokens: &'t [Placed<'a>],
) -> Result<(Port, &'t [Placed<'a>]), ReadFault>
    ensures { Gives (with_rest port_of) result (list.port_at room (placed tokens.now)) }
{
    match tokens {
        [first, rest @ ..] => match direction_of(first.token) {
            Some(output) => port_rest(alloc, room, first.line, output, rest),
            None => Err(ReadFault::At { left: tokens.len() }),
        },
        [] => Err(ReadFault::At { left: 0 }),
    }
}

/// The port, from behind its direction on, and what follows it.
fn port_rest<'t, 'a>(
    alloc: Global,
    room: usize,
    line: u32,
    output: bool,
    tokens: &'t [Placed<'a>],
) -> Result<(Port, &'t [Placed<'a>]), ReadFault>
    ensures { Gives (with_rest port_of) result (list.port_rest_at room line output (placed tokens.now)) }
{
    let (name, rest) = name(tokens)?;
    let rest = mark(rest, Mark::Colon)?;
    let (width, rest) = closed(int(alloc, Dialect::Source, room, rest)?, Mark::Semicolon)?;
    let name = Text::new(alloc, name)?;
    let port = Port {
        line,
        output,
        name,
        width,
    };
    Ok((port, rest))
}

/// The opening brace of a module and the ports behind it, and what follows them.
fn ports<'t, 'a>(
    alloc: Global,
    room: usize,
    tokens: &'t [Placed<'a>],
) -> Result<(Vec<Port>, &'t [Placed<'a>]), ReadFault>
    ensures exact { Gives (with_rest (λ all. map port_of all.items)) result (list.ports_at room (placed tokens.now)) }
    ensures room { IfOk result (λ found. 0 < room) }
{
    let mut all = Vec::new(alloc);
    let mut rest = open(tokens, Mark::LeftBrace, room)?;
    'turns: while begins_port(rest) {
        let (one, after) = port(alloc, room - 1, rest)?;
        all.push(one)?;
        rest = after;
    }
    Ok((all, rest))
}

/// The ports and the items of a module, in braces, and what follows them.
fn content<'t, 'a>(
    alloc: Global,
    room: usize,
    tokens: &'t [Placed<'a>],
) -> Result<((Vec<Port>, Vec<Item>), &'t [Placed<'a>]), ReadFault>
    ensures { Gives (with_rest (λ found. (map port_of found.0.items, items_of found.1.items))) result (list.content_at room (placed tokens.now)) }
{
    let mut all = Vec::new(alloc);
    let (ports, mut rest) = ports(alloc, room, tokens)?;
    'turns: while !begins_mark(rest, Mark::RightBrace) {
        let (one, after) = item(alloc, room - 1, rest)?;
        all.push(one)?;
        rest = after;
    }
    let rest = mark(rest, Mark::RightBrace)?;
    Ok(((ports, all), rest))
}

/// The module, from behind its keyword on, and what follows it.
fn module_rest<'t, 'a>(
    alloc: Global,
    room: usize,
    line: u32,
    tokens: &'t [Placed<'a>],
) -> Result<(Module, &'t [Placed<'a>]), ReadFault>
    ensures { Gives (with_rest module_of) result (list.module_rest_at room line (placed tokens.now)) }
{
    let (name, rest) = name(tokens)?;
    let (params, rest) = params(alloc, room, rest)?;
    let ((ports, items), rest) = content(alloc, room, rest)?;
    let name = Text::new(alloc, name)?;
    let module = Module {
        line,
        name,
        params,
        ports,
        items,
    };
    Ok((module, rest))
}

/// The module in front, and what follows it.
#[tactic(auto, unfolding(crate::specs::Reading::module_at))]
fn module<'t, 'a>(
    alloc: Global,
    room: usize,
    tokens: &'t [Placed<'a>],
) -> Result<(Module, &'t [Placed<'a>]), ReadFault>
    ensures { Gives (with_rest module_of) result (list.module_at room (placed tokens.now)) }
{
    match tokens {
        [first, rest @ ..] => {
            if !is_keyword(first.token, Keyword::Module) {
                return Err(ReadFault::At { left: tokens.len() });
            }
            module_rest(alloc, room, first.line, rest)
        }
        [] => Err(ReadFault::At { left: 0 }),
    }
}

/// The modules that the tokens are, to the last of them; one at least.
pub(crate) fn module_list(alloc: Global, tokens: &[Placed<'_>]) -> Result<Vec<Module>, ReadFault>
    ensures { Gives (λ all. modules_of all.items) result (list.modules_at 64 (placed tokens.now)) }
{
    let mut all = Vec::new(alloc);
    let (first, mut rest) = module(alloc, ROOM, tokens)?;
    all.push(first)?;
    'turns: while !rest.is_empty() {
        let (one, after) = module(alloc, ROOM, rest)?;
        all.push(one)?;
        rest = after;
    }
    Ok(all)
}
