//! An expression alone as terms: a walk that begins with nothing and has no log.

ghost use Rattle.std.specs.Prelude.{◌≡◌, [], IfOk};
ghost use Rattle.block_net.specs.Blocks.{TellsExpr};
ghost use Rattle.block_net.specs.Source.{expr_in};
ghost use Rattle.block_net.specs.Walks.{Fits, all_themselves, env_of, state_of, themselves};

use crate::TermId;
use crate::block::BlockTerms;
use crate::terms::Terms;
use crate::walk::Walk;
use design_core::Expr;
use names::NameMap;
use std::alloc::Global;
use text_core::NoMemory;

/// A walk that has come to nothing yet. Takes no memory.
pub(crate) fn blank(alloc: Global) -> Walk
    ensures fits { Fits result }
    ensures log { result.log.items ≡ [] }
    ensures state { state_of result ≡ all_themselves }
    ensures env { env_of result ≡ themselves }
{
    Walk {
        terms: Terms::new(alloc),
        now: NameMap::new(alloc),
        next: NameMap::new(alloc),
        log: Vec::new(alloc),
    }
}

/// The term of an expression, in a walk that has come to nothing yet.
fn term_in(alloc: Global, walk: &mut Walk, expr: &Expr) -> Result<TermId, NoMemory>
    requires fits { Fits walk.old }
    requires log { walk.old.log.items ≡ [] }
    requires env { env_of walk.old ≡ themselves }
    ensures fits { IfOk result (λ id. Fits walk.new) }
    ensures log { IfOk result (λ id. walk.new.log.items ≡ []) }
    ensures tells { IfOk result (λ id. TellsExpr walk.new.terms id (expr_in expr.now)) }
{
    let id = walk.term_of(alloc, expr)?;
    Ok(id.unwrap())
}

/// The terms of an expression over the names of an instance, with the term of the whole. There is no log.
pub fn expr_terms(alloc: Global, expr: &Expr) -> Result<(BlockTerms, TermId), NoMemory>
    ensures { IfOk result (λ found. TellsExpr found.0.terms found.1 (expr_in expr.now)) }
{
    let mut walk = blank(alloc);
    let id = term_in(alloc, &mut walk, expr)?;
    Ok((BlockTerms::of(walk), id))
}
