//! Which operand of a term comes next. Terms nest as deep as a source is long, so they are walked by a stack and not by recursion.

ghost use Rattle.std.specs.Prelude.{◌≡◌, ◌<◌, length, IsSome, MatchOption, None};
ghost use Rattle.block_net.specs.Terms.{AreNumbered};
ghost use Rattle.term_net.specs.Leaves.{node_at};
ghost use Rattle.term_net.specs.Pending.{AreKnown, IsMissing, IsTaken, term_at};

use block_net::{Term, TermId};
use bv_core::NodeId;

/// A term, if it has no node yet.
fn unknown(memo: &[Option<NodeId>], id: TermId) -> Option<TermId>
    requires { id.0 < length memo.now }
    ensures { MatchOption result (IsSome (node_at memo.now id.0)) (λ a. (a ≡ id) × (node_at memo.now id.0 ≡ None)) }
{
    if memo[id.0].is_some() { None } else { Some(id) }
}

/// The first operand of a term that has no node yet.
pub(crate) fn missing(terms: &[Term], memo: &[Option<NodeId>], id: TermId) -> Option<TermId>
    requires numbered { AreNumbered terms.now }
    requires each { length memo.now ≡ length terms.now }
    requires within { id.0 < length terms.now }
    ensures { MatchOption result (AreKnown memo.now (term_at terms.now id.0)) (λ a. IsMissing memo.now (term_at terms.now id.0) a.0) }
{
    let term = &terms[id.0];
    match term {
        Term::Leaf(_) | Term::Value { .. } => None,
        Term::Unary(_, a) | Term::Zext(a, _) | Term::Slice(a, _, _) => unknown(memo, *a),
        Term::Binary(_, a, b) => unknown(memo, *a).or(unknown(memo, *b)),
        Term::Mux(c, a, b) => unknown(memo, *c)
            .or(unknown(memo, *a))
            .or(unknown(memo, *b)),
    }
}

/// Takes the top of a stack, or the root where it is empty.
pub(crate) fn next(stack: &mut Vec<TermId>, root: TermId) -> TermId
    ensures { IsTaken stack.old.items stack.new.items root result }
{
    stack.pop().unwrap_or(root)
}
