//! Members of families are names of their own, written with `#` and the index, which no source can write as a name.

ghost use Rattle.std.specs.Prelude.{◌≡◌};
ghost use Rattle.gen_tree.specs.View.{fam_of};
ghost use Rattle.elab_core.specs.Results.{AnswersWith};
ghost use Rattle.elab_core.specs.Numbers.{family, fam_name};

use crate::number_at;
use elab_core::ElabFault;
use gen_scope::Scope;
use gen_tree::Fam;
use std::alloc::Global;
use text_core::Text;

/// The name of the member of a family with an index, as `t#2`.
fn member(alloc: Global, line: u32, name: &[u8], index: i64) -> Result<Text, ElabFault>
    ensures { AnswersWith (λ x. x) result (family line name.now index) }
{
    let Ok(index) = u64::try_from(index) else {
        return Err(ElabFault::ElabRange { line });
    };
    let index = format!(in alloc; "#{index}")?;
    let mut bytes = name.to_vec(alloc)?;
    bytes.extend_from_slice(index.as_bytes())?;
    let name = Text::new(alloc, &bytes)?;
    Ok(name)
}

/// The name of a member of a family, or a plain name.
#[tactic(auto, unfolding(elab_core::specs::Numbers::index_name), using(crate::proofs::Steps::walk_steps))]
pub fn family_name(alloc: Global, line: u32, scope: &Scope, family: &Fam) -> Result<Text, ElabFault>
    ensures { AnswersWith (λ x. x) result (fam_name line scope.now (fam_of family.now)) }
{
    match &family.index {
        None => {
            let name = Text::new(alloc, family.name.bytes())?;
            Ok(name)
        }
        Some(index) => {
            let index = number_at(alloc, line, scope, index)?;
            let name = member(alloc, line, family.name.bytes(), index)?;
            Ok(name)
        }
    }
}
