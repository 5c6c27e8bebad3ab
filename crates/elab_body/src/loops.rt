//! A loop as it is walked: what its turns have in common.

ghost use Rattle.std.specs.Prelude.{◌≡◌, IfOk};
ghost use Rattle.gen_tree.specs.View.{int_of};
ghost use Rattle.elab_core.specs.Results.{AnswersWith};
ghost use Rattle.elab_base.specs.Turns.{turns_at};

use elab_base::{Turns, shared_name, turns_of};
use elab_core::ElabFault;
use gen_scope::Scope;
use gen_tree::Int;
use std::alloc::Global;
use std::rc::Rc;
use text_core::Text;

/// A loop: the line where it stands, the name of its variable, and its turns.
#[derive(Drop)]
pub struct Loop {
    pub line: u32,
    pub name: Rc<Text>,
    pub turns: Turns,
}

/// The loop at this line of a variable from one integer to below another; its faults are on the line.
pub fn loop_of(
    alloc: Global,
    line: u32,
    scope: &Scope,
    variable: &Text,
    from: &Int,
    to: &Int,
) -> Result<Loop, ElabFault>
    ensures turns { AnswersWith (λ each. (each.turns.from, each.turns.count)) result (turns_at line scope.now (int_of from.now) (int_of to.now)) }
    ensures line { IfOk result (λ each. each.line ≡ line) }
    ensures name { IfOk result (λ each. each.name.value ≡ variable.now) }
{
    let turns = turns_of(alloc, line, scope, from, to)?;
    let name = shared_name(alloc, variable)?;
    Ok(Loop { line, name, turns })
}
