//! The turns of a loop, as first number and count: a loop is never unrolled into a list.

ghost use Rattle.std.specs.Prelude.{◌≡◌, ◌<◌, pos, ◌+ℤ◌, ◌≤ℤ◌};
ghost use Rattle.gen_tree.specs.View.{int_of};
ghost use Rattle.elab_core.specs.Results.{AnswersWith, NoMemoryOr};
ghost use Rattle.elab_base.specs.Turns.{turns_at};

use crate::number::turns_between;
use crate::two_numbers;
use elab_core::ElabFault;
use gen_scope::Scope;
use gen_tree::Int;
use std::alloc::Global;
use std::rc::Rc;
use text_core::Text;

/// The turns of a loop: the number of the first, and how many there are.
#[derive(Drop)]
pub struct Turns {
    pub from: i64,
    pub count: u32,
    pub ghost last: { (from +ℤ pos count) ≤ℤ pos 9223372036854775807 },
}

impl Turns {
    /// The number of a turn, whose place is counted from 0.
    pub fn number(&self, turn: u32) -> i64
        requires { turn < self.now.count }
        ensures { result ≡ self.now.from +ℤ pos turn }
    {
        self.from + i64::from(turn)
    }
}

/// The name of a loop's variable, for all turns of the loop.
pub fn shared_name(alloc: Global, variable: &Text) -> Result<Rc<Text>, ElabFault>
    ensures { NoMemoryOr (λ name. name.value ≡ variable.now) result }
{
    let name = Text::new(alloc, variable.bytes())?;
    let name = Rc::new(alloc, name)?;
    Ok(name)
}

/// The turns of a loop from one integer to below another; its faults are on this line.
#[tactic(auto, unfolding(crate::specs::Turns::turns_at), using(crate::proofs::Steps::walk_steps))]
pub fn turns_of(
    alloc: Global,
    line: u32,
    scope: &Scope,
    from: &Int,
    to: &Int,
) -> Result<Turns, ElabFault>
    ensures { AnswersWith (λ turns. (turns.from, turns.count)) result (turns_at line scope.now (int_of from.now) (int_of to.now)) }
{
    let (from, to) = two_numbers(alloc, line, scope, from, to)?;
    let count = turns_between(line, from, to)?;
    Ok(Turns { from, count })
}
