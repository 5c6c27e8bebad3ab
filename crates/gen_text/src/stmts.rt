//! Statements. The first token decides what is read; the two kinds of blocks differ in the mark of an assignment alone.

ghost use Rattle.gen_token.specs.Words.{placed};
ghost use Rattle.gen_tree.specs.Grammar.{assign_mark};
ghost use Rattle.std.specs.Prelude.{map, option_map};
ghost use Rattle.gen_tree.specs.View.{arm_of, arms_of, bounds_of, else_of, int_of, lit_of, stmt_of, stmts_of};
ghost use Rattle.gen_text.specs.Faults.{Gives, with_rest};
ghost use Rattle.gen_text.specs.Reading as list;

use crate::exprs::{bounds, lit};
use crate::fault::ReadFault;
use crate::ints::{cmp, fam, fam_rest, int};
use crate::tree::expr_tree;
use crate::words::{begins_keyword, begins_lit, begins_mark, closed, keyword, mark, name, open};
use gen_token::{Keyword, Mark, Placed, Token};
use gen_tree::{Arm, Cmp, Dialect, Int, Lit, Stmt};
use std::alloc::Global;
use std::boxed::Box;
use text_core::Text;

/// The variable and the bounds of a loop, behind `for`, and what follows them.
pub(crate) fn turns<'t, 'a>(
    alloc: Global,
    room: usize,
    tokens: &'t [Placed<'a>],
) -> Result<((Text, Int, Int), &'t [Placed<'a>]), ReadFault>
    ensures { Gives (with_rest (λ head. (head.0, int_of head.1, int_of head.2))) result (list.turns_at room (placed tokens.now)) }
{
    let (var, rest) = name(tokens)?;
    let rest = keyword(rest, Keyword::In)?;
    let (from, rest) = closed(int(alloc, Dialect::Source, room, rest)?, Mark::DotDot)?;
    let (to, rest) = int(alloc, Dialect::Source, room, rest)?;
    let var = Text::new(alloc, var)?;
    Ok(((var, from, to), rest))
}

/// The comparison of a `gen if`, behind `gen`, and what follows it.
pub(crate) fn given<'t, 'a>(
    alloc: Global,
    room: usize,
    tokens: &'t [Placed<'a>],
) -> Result<((Int, Cmp, Int), &'t [Placed<'a>]), ReadFault>
    ensures { Gives (with_rest (λ head. (int_of head.0, head.1, int_of head.2))) result (list.given_at room (placed tokens.now)) }
{
    let rest = keyword(tokens, Keyword::If)?;
    let rest = open(rest, Mark::LeftParen, room)?;
    let (left, rest) = int(alloc, Dialect::Source, room - 1, rest)?;
    let (cmp, rest) = cmp(rest)?;
    let (right, rest) = closed(
        int(alloc, Dialect::Source, room - 1, rest)?,
        Mark::RightParen,
    )?;
    Ok(((left, cmp, right), rest))
}

/// What follows the mark of an assignment: `<=` in an ff, `=` in a comb.
fn assign_mark<'t, 'a>(
    clocked: bool,
    tokens: &'t [Placed<'a>],
) -> Result<&'t [Placed<'a>], ReadFault>
    ensures { Gives (λ rest. placed rest.now) result (list.mark_at (assign_mark clocked) (placed tokens.now)) }
{
    if clocked {
        return mark(tokens, Mark::LessEquals);
    }
    mark(tokens, Mark::Equals)
}

/// The statement in front, of an ff or a comb, and what follows it. `room` brackets may still be opened.
#[cycle(stmts)]
fn stmt<'t, 'a>(
    alloc: Global,
    clocked: bool,
    room: usize,
    tokens: &'t [Placed<'a>],
) -> Result<(Stmt, &'t [Placed<'a>]), ReadFault>
    ensures { Gives (with_rest stmt_of) result (list.stmt_step clocked room (list.inner_stmts clocked room) (list.inner_arms clocked room)
        (placed tokens.now)) }
{
    match tokens {
        [first, rest @ ..] => match first.token {
            Token::Name(name) => assign(alloc, clocked, room, first.line, name, rest),
            Token::Keyword(Keyword::Let) => bind(alloc, room, first.line, rest),
            Token::Keyword(Keyword::If) => choose(alloc, clocked, room, first.line, rest),
            Token::Keyword(Keyword::Case) => select(alloc, clocked, room, first.line, rest),
            Token::Keyword(Keyword::For) => repeat(alloc, clocked, room, first.line, rest),
            Token::Keyword(Keyword::Gen) => generate(alloc, clocked, room, first.line, rest),
            _ => Err(ReadFault::At { left: tokens.len() }),
        },
        [] => Err(ReadFault::At { left: 0 }),
    }
}

/// The assignment to a name, from behind the name on, and what follows it.
#[tactic(auto, using(gen_tree::proofs::Views::view_steps))]
fn assign<'t, 'a>(
    alloc: Global,
    clocked: bool,
    room: usize,
    line: u32,
    name: &[u8],
    tokens: &'t [Placed<'a>],
) -> Result<(Stmt, &'t [Placed<'a>]), ReadFault>
    ensures { Gives (with_rest stmt_of) result (list.assign_at clocked room line name.now (placed tokens.now)) }
{
    let (target, rest) = fam_rest(alloc, Dialect::Source, room, name, tokens)?;
    let (part, rest) = part(alloc, room, rest)?;
    let rest = assign_mark(clocked, rest)?;
    let (value, rest) = closed(expr_tree(alloc, room, rest)?, Mark::Semicolon)?;
    let assign = Stmt::Assign {
        line,
        target,
        part,
        value,
    };
    Ok((assign, rest))
}

/// The bounds of the part of a name that is assigned, or none, and what follows them.
fn part<'t, 'a>(
    alloc: Global,
    room: usize,
    tokens: &'t [Placed<'a>],
) -> Result<(Option<(Box<Int>, Box<Int>)>, &'t [Placed<'a>]), ReadFault>
    ensures { Gives (with_rest (option_map bounds_of)) result (list.part_at room (placed tokens.now)) }
{
    if !begins_mark(tokens, Mark::LeftBracket) {
        return Ok((None, tokens));
    }
    let (part, rest) = bounds(alloc, Dialect::Source, room, tokens)?;
    Ok((Some(part), rest))
}

/// What stands behind `let`, and what follows it.
#[tactic(auto, using(gen_tree::proofs::Views::view_steps))]
fn bind<'t, 'a>(
    alloc: Global,
    room: usize,
    line: u32,
    tokens: &'t [Placed<'a>],
) -> Result<(Stmt, &'t [Placed<'a>]), ReadFault>
    ensures { Gives (with_rest stmt_of) result (list.let_at room line (placed tokens.now)) }
{
    let (name, rest) = closed(fam(alloc, room, tokens)?, Mark::Equals)?;
    let (value, rest) = closed(expr_tree(alloc, room, rest)?, Mark::Semicolon)?;
    Ok((Stmt::Let { line, name, value }, rest))
}

/// What stands behind `if`, and what follows it.
#[cycle(stmts)]
#[tactic(auto, using(gen_tree::proofs::Views::view_steps))]
fn choose<'t, 'a>(
    alloc: Global,
    clocked: bool,
    room: usize,
    line: u32,
    tokens: &'t [Placed<'a>],
) -> Result<(Stmt, &'t [Placed<'a>]), ReadFault>
    ensures { Gives (with_rest stmt_of) result (list.if_at room (list.inner_stmts clocked room) line (placed tokens.now)) }
{
    let (test, rest) = expr_tree(alloc, room, tokens)?;
    let (yes, rest) = block(alloc, clocked, room, rest)?;
    let (no, rest) = otherwise(alloc, clocked, room, rest)?;
    Ok((
        Stmt::If {
            line,
            test,
            yes,
            no,
        },
        rest,
    ))
}

/// What stands behind `case`, and what follows it.
#[cycle(stmts)]
#[tactic(auto, using(gen_tree::proofs::Views::view_steps))]
fn select<'t, 'a>(
    alloc: Global,
    clocked: bool,
    room: usize,
    line: u32,
    tokens: &'t [Placed<'a>],
) -> Result<(Stmt, &'t [Placed<'a>]), ReadFault>
    ensures { Gives (with_rest stmt_of) result (list.case_at room (list.inner_arms clocked room) line (placed tokens.now)) }
{
    let (value, rest) = expr_tree(alloc, room, tokens)?;
    let rest = open(rest, Mark::LeftBrace, room)?;
    let ((arms, other), rest) = cases(alloc, clocked, room - 1, rest)?;
    let select = Stmt::Case {
        line,
        value,
        arms,
        other,
    };
    Ok((select, rest))
}

/// The arms and the default behind the brace of a `case`, up to the brace that closes it, and what follows.
#[cycle(stmts)]
fn cases<'t, 'a>(
    alloc: Global,
    clocked: bool,
    room: usize,
    tokens: &'t [Placed<'a>],
) -> Result<((Vec<Arm>, Option<Vec<Stmt>>), &'t [Placed<'a>]), ReadFault>
    ensures { Gives (with_rest (λ c. (arms_of c.0.items, else_of c.1))) result (list.arms_step room (list.inner_stmts clocked room) (placed tokens.now)) }
{
    let (arms, rest) = arm_list(alloc, clocked, room, tokens)?;
    let (other, rest) = closed(default(alloc, clocked, room, rest)?, Mark::RightBrace)?;
    Ok(((arms, other), rest))
}

/// One arm or more, and what follows them.
#[cycle(stmts)]
fn arm_list<'t, 'a>(
    alloc: Global,
    clocked: bool,
    room: usize,
    tokens: &'t [Placed<'a>],
) -> Result<(Vec<Arm>, &'t [Placed<'a>]), ReadFault>
    ensures { Gives (with_rest (λ all. map arm_of all.items)) result (list.arm_list_at room (list.inner_stmts clocked room) (placed tokens.now)) }
{
    let mut all = Vec::new(alloc);
    let (first, mut rest) = arm(alloc, clocked, room, tokens)?;
    all.push(first)?;
    'turns: while begins_lit(rest) {
        let (one, after) = arm(alloc, clocked, room, rest)?;
        all.push(one)?;
        rest = after;
    }
    Ok((all, rest))
}

/// The arm in front, and what follows it.
#[cycle(stmts)]
fn arm<'t, 'a>(
    alloc: Global,
    clocked: bool,
    room: usize,
    tokens: &'t [Placed<'a>],
) -> Result<(Arm, &'t [Placed<'a>]), ReadFault>
    ensures { Gives (with_rest arm_of) result (list.arm_at room (list.inner_stmts clocked room) (placed tokens.now)) }
{
    let (tests, rest) = closed(tests(alloc, room, tokens)?, Mark::Colon)?;
    let (body, rest) = block(alloc, clocked, room, rest)?;
    Ok((Arm { tests, body }, rest))
}

/// One literal or more, with commas between them, and what follows them.
fn tests<'t, 'a>(
    alloc: Global,
    room: usize,
    tokens: &'t [Placed<'a>],
) -> Result<(Vec<Lit>, &'t [Placed<'a>]), ReadFault>
    ensures { Gives (with_rest (λ all. map lit_of all.items)) result (list.tests_at room (placed tokens.now)) }
{
    let mut all = Vec::new(alloc);
    let (first, mut rest) = lit(alloc, Dialect::Source, room, tokens)?;
    all.push(first)?;
    'turns: while begins_mark(rest, Mark::Comma) {
        let (one, after) = more_test(alloc, room, rest)?;
        all.push(one)?;
        rest = after;
    }
    Ok((all, rest))
}

/// The comma in front and the literal behind it, and what follows them.
fn more_test<'t, 'a>(
    alloc: Global,
    room: usize,
    tokens: &'t [Placed<'a>],
) -> Result<(Lit, &'t [Placed<'a>]), ReadFault>
    ensures { Gives (with_rest lit_of) result (list.more_test_at room (placed tokens.now)) }
{
    let rest = mark(tokens, Mark::Comma)?;
    lit(alloc, Dialect::Source, room, rest)
}

/// A `default` with its statements, or none, and what follows it.
#[cycle(stmts)]
fn default<'t, 'a>(
    alloc: Global,
    clocked: bool,
    room: usize,
    tokens: &'t [Placed<'a>],
) -> Result<(Option<Vec<Stmt>>, &'t [Placed<'a>]), ReadFault>
    ensures { Gives (with_rest else_of) result (list.default_at room (list.inner_stmts clocked room) (placed tokens.now)) }
{
    if !begins_keyword(tokens, Keyword::Default) {
        return Ok((None, tokens));
    }
    let (other, rest) = block(alloc, clocked, room, &tokens[1..])?;
    Ok((Some(other), rest))
}

/// What stands behind `for`, and what follows it.
#[cycle(stmts)]
#[tactic(auto, using(gen_tree::proofs::Views::view_steps))]
fn repeat<'t, 'a>(
    alloc: Global,
    clocked: bool,
    room: usize,
    line: u32,
    tokens: &'t [Placed<'a>],
) -> Result<(Stmt, &'t [Placed<'a>]), ReadFault>
    ensures { Gives (with_rest stmt_of) result (list.for_at room (list.inner_stmts clocked room) line (placed tokens.now)) }
{
    let ((var, from, to), rest) = turns(alloc, room, tokens)?;
    let (body, rest) = block(alloc, clocked, room, rest)?;
    let repeat = Stmt::For {
        line,
        var,
        from,
        to,
        body,
    };
    Ok((repeat, rest))
}

/// What stands behind `gen`, and what follows it.
#[cycle(stmts)]
#[tactic(auto, using(gen_tree::proofs::Views::view_steps))]
fn generate<'t, 'a>(
    alloc: Global,
    clocked: bool,
    room: usize,
    line: u32,
    tokens: &'t [Placed<'a>],
) -> Result<(Stmt, &'t [Placed<'a>]), ReadFault>
    ensures { Gives (with_rest stmt_of) result (list.gen_at room (list.inner_stmts clocked room) line (placed tokens.now)) }
{
    let ((left, cmp, right), rest) = given(alloc, room, tokens)?;
    let (yes, rest) = block(alloc, clocked, room, rest)?;
    let (no, rest) = otherwise(alloc, clocked, room, rest)?;
    let generate = Stmt::GenIf {
        line,
        left,
        cmp,
        right,
        yes,
        no,
    };
    Ok((generate, rest))
}

/// An `else` with its statements, or none, and what follows it.
#[cycle(stmts)]
fn otherwise<'t, 'a>(
    alloc: Global,
    clocked: bool,
    room: usize,
    tokens: &'t [Placed<'a>],
) -> Result<(Option<Vec<Stmt>>, &'t [Placed<'a>]), ReadFault>
    ensures { Gives (with_rest else_of) result (list.else_at room (list.inner_stmts clocked room) (placed tokens.now)) }
{
    if !begins_keyword(tokens, Keyword::Else) {
        return Ok((None, tokens));
    }
    let (no, rest) = block(alloc, clocked, room, &tokens[1..])?;
    Ok((Some(no), rest))
}

/// The statements in braces in front, and what follows them.
#[cycle(stmts)]
pub(crate) fn block<'t, 'a>(
    alloc: Global,
    clocked: bool,
    room: usize,
    tokens: &'t [Placed<'a>],
) -> Result<(Vec<Stmt>, &'t [Placed<'a>]), ReadFault>
    ensures { Gives (with_rest (λ all. stmts_of all.items)) result (list.body_by room (list.inner_stmts clocked room) (placed tokens.now)) }
{
    let mut all = Vec::new(alloc);
    let mut rest = open(tokens, Mark::LeftBrace, room)?;
    'turns: while !begins_mark(rest, Mark::RightBrace) {
        let (one, after) = stmt(alloc, clocked, room - 1, rest)?;
        all.push(one)?;
        rest = after;
    }
    let rest = mark(rest, Mark::RightBrace)?;
    Ok((all, rest))
}
