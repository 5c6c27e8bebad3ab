//! Literals whose integers are computed. Whether the value fits is judged later, by the checks, with the width that was said.

ghost use Rattle.std.specs.Prelude.{◌≡◌};
ghost use Rattle.gen_tree.specs.View.{lit_of};
ghost use Rattle.elab_core.specs.Results.{AnswersWith};
ghost use Rattle.elab_core.specs.Elab.{literal, literal_of};

use crate::two_numbers;
use design_core::Literal;
use elab_core::ElabFault;
use gen_scope::Scope;
use gen_tree::Lit;
use std::alloc::Global;

/// A literal of this width and value.
fn computed(width: i64, value: i64) -> Literal
    ensures { result ≡ literal_of width value }
{
    Literal {
        width,
        negative: value < 0,
        value: u128::from(value.unsigned_abs()),
    }
}

/// A literal of the source, whose integers are computed. Errors: those of its integers, on this line.
///
/// A written width above 2^63 - 1, which no source that was read has, has no place in a literal and ends as `NoMemory`.
#[tactic(auto, unfolding(elab_core::specs::Elab::literal), using(crate::proofs::Steps::walk_steps))]
pub fn literal_at(
    alloc: Global,
    line: u32,
    scope: &Scope,
    written: &Lit,
) -> Result<Literal, ElabFault>
    ensures { AnswersWith (λ l. l) result (literal line scope.now (lit_of written.now)) }
{
    match written {
        Lit::Plain { width, value } => {
            let Ok(width) = i64::try_from(*width) else {
                return Err(ElabFault::NoMemory);
            };
            Ok(Literal {
                width,
                negative: false,
                value: *value,
            })
        }
        Lit::Bits { width, value } => {
            let (width, value) = two_numbers(alloc, line, scope, width, value)?;
            Ok(computed(width, value))
        }
    }
}
