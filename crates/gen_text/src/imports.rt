//! The imports of a source, and a source: its imports and then its modules.

ghost use Rattle.std.specs.Prelude.{◌≡◌, true, map};
ghost use Rattle.gen_token.specs.Words.{placed};
ghost use Rattle.gen_tree.specs.View.{import_of, source_of};
ghost use Rattle.gen_text.specs.Faults.{Gives, with_rest};
ghost use Rattle.gen_text.specs.Reading as list;

use crate::fault::ReadFault;
use crate::modules::module_list;
use crate::words::{begins_keyword, is_keyword, mark, name};
use gen_token::{Keyword, Mark, Placed};
use gen_tree::{Import, Source};
use std::alloc::Global;
use text_core::Text;

/// The import, from behind its keyword on, and what follows it.
fn import_rest<'t, 'a>(
    alloc: Global,
    line: u32,
    tokens: &'t [Placed<'a>],
) -> Result<(Import, &'t [Placed<'a>]), ReadFault>
    ensures { Gives (with_rest import_of) result (list.import_rest_at line (placed tokens.now)) }
{
    let (name, rest) = name(tokens)?;
    let rest = mark(rest, Mark::Semicolon)?;
    let name = Text::new(alloc, name)?;
    Ok((Import { line, name }, rest))
}

/// The import in front, and what follows it.
#[tactic(auto, unfolding(crate::specs::Reading::import_at))]
fn import<'t, 'a>(
    alloc: Global,
    tokens: &'t [Placed<'a>],
) -> Result<(Import, &'t [Placed<'a>]), ReadFault>
    ensures { Gives (with_rest import_of) result (list.import_at (placed tokens.now)) }
{
    match tokens {
        [first, rest @ ..] => {
            if !is_keyword(first.token, Keyword::Import) {
                return Err(ReadFault::At { left: tokens.len() });
            }
            import_rest(alloc, first.line, rest)
        }
        [] => Err(ReadFault::At { left: 0 }),
    }
}

/// The imports in front, or none, and what follows them.
#[tactic(auto, using(crate::proofs::ImportsRead::none_begins))]
fn imports<'t, 'a>(
    alloc: Global,
    tokens: &'t [Placed<'a>],
) -> Result<(Vec<Import>, &'t [Placed<'a>]), ReadFault>
    ensures { Gives (with_rest (λ all. map import_of all.items)) result (list.imports_at (placed tokens.now)) }
{
    if !begins_keyword(tokens, Keyword::Import) {
        return Ok((Vec::new(alloc), tokens));
    }
    import_list(alloc, tokens)
}

/// One import or more, and what follows them.
fn import_list<'t, 'a>(
    alloc: Global,
    tokens: &'t [Placed<'a>],
) -> Result<(Vec<Import>, &'t [Placed<'a>]), ReadFault>
    requires { list.begins_import (placed tokens.now) ≡ true }
    ensures { Gives (with_rest (λ all. map import_of all.items)) result (list.imports_at (placed tokens.now)) }
{
    let mut all = Vec::new(alloc);
    let (first, mut rest) = import(alloc, tokens)?;
    all.push(first)?;
    'turns: while begins_keyword(rest, Keyword::Import) {
        let (one, after) = import(alloc, rest)?;
        all.push(one)?;
        rest = after;
    }
    Ok((all, rest))
}

/// The source that the tokens are, to the last of them.
pub(crate) fn source(alloc: Global, tokens: &[Placed<'_>]) -> Result<Source, ReadFault>
    ensures { Gives source_of result (list.source_at 64 (placed tokens.now)) }
{
    let (imports, rest) = imports(alloc, tokens)?;
    let modules = module_list(alloc, rest)?;
    Ok(Source { imports, modules })
}
