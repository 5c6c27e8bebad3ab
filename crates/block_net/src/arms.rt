//! The arms of a `case` that were walked through: their conditions, and joining them, from the last one back to the first.

ghost use Rattle.std.specs.Prelude.{IfOk, OnOk, map};
ghost use Rattle.exec_core.specs.Trees.{else_enable};
ghost use Rattle.design_exec.specs.Processes.{value_of as literal_of};
ghost use Rattle.names.specs.Maps.{value_of};
ghost use Rattle.name_widths.specs.DeclaredWidths.{width_at};
ghost use Rattle.block_net.specs.Cases.{arm_test, literal_is, or_literals};
ghost use Rattle.block_net.specs.Terms.{Extends, IsWithin, Stands, tree_for};
ghost use Rattle.block_net.specs.Walks.{Fits, Grown, HaveTerms, Shows};
ghost use Rattle.block_net.specs.Ways.{EndsHaveTerms, JoinsArm, JoinsArms};

use crate::TermId;
use crate::bindings::{Binding, choose, set_all};
use crate::walk::Walk;
use design_core::{Literal, Op, UnOp};
use names::NameMap;
use std::alloc::Global;
use text_core::NoMemory;

/// Where a branch begins: the enable around it, and its condition, or the value of its `case`.
#[derive(Clone, Copy)]
pub(crate) struct Branch {
    pub(crate) enable: Option<TermId>,
    pub(crate) test: Option<TermId>,
}

/// What an arm leaves: its condition, and what was pending at its end for the keys of it and of what comes after it.
#[derive(Drop)]
pub(crate) struct ArmEnd {
    pub(crate) test: Option<TermId>,
    pub(crate) firsts: Vec<Binding>,
}

impl Walk {
    /// The enable of an else-branch.
    pub(crate) fn else_enable(&mut self, branch: Branch) -> Result<Option<TermId>, NoMemory>
        requires fits { Fits self.old }
        requires within { IsWithin self.old.terms branch.enable }
        requires test { IsWithin self.old.terms branch.test }
        ensures grown { OnOk result (Grown self.old self.new) }
        ensures stands { IfOk result (λ id. Stands self.new.terms id
            (else_enable (tree_for self.old.terms branch.enable) (tree_for self.old.terms branch.test))) }
    {
        let opposite = self.unary(UnOp::Not, branch.test)?;
        let enable = self.binary(Op::And, branch.enable, opposite)?;
        Ok(enable)
    }

    /// Whether a value is a literal.
    fn literal_is(
        &mut self,
        value: Option<TermId>,
        literal: &Literal,
    ) -> Result<Option<TermId>, NoMemory>
        requires fits { Fits self.old }
        requires within { IsWithin self.old.terms value }
        ensures grown { OnOk result (Grown self.old self.new) }
        ensures stands { IfOk result (λ id. Stands self.new.terms id (literal_is (tree_for self.old.terms value) (literal_of literal.now))) }
    {
        let constant = self.constant(literal.width, literal.value)?;
        let is = self.binary(Op::Eq, value, constant)?;
        Ok(is)
    }

    /// A condition with more literals, leaning to the left.
    fn or_literals(
        &mut self,
        test: Option<TermId>,
        value: Option<TermId>,
        literals: &[Literal],
    ) -> Result<Option<TermId>, NoMemory>
        requires fits { Fits self.old }
        requires test { IsWithin self.old.terms test }
        requires within { IsWithin self.old.terms value }
        ensures grown { OnOk result (Grown self.old self.new) }
        ensures stands { IfOk result (λ id. Stands self.new.terms id
            (or_literals (tree_for self.old.terms test) (tree_for self.old.terms value) (map literal_of literals.now))) }
    {
        let mut found = test;
        for literal in literals {
            let is = self.literal_is(value, literal)?;
            found = self.binary(Op::Or, found, is)?;
        }
        Ok(found)
    }

    /// The condition of an arm.
    pub(crate) fn arm_test(
        &mut self,
        value: Option<TermId>,
        literals: &[Literal],
    ) -> Result<Option<TermId>, NoMemory>
        requires fits { Fits self.old }
        requires within { IsWithin self.old.terms value }
        ensures grown { OnOk result (Grown self.old self.new) }
        ensures stands { IfOk result (λ id. Stands self.new.terms id (arm_test (tree_for self.old.terms value) (map literal_of literals.now))) }
    {
        if literals.is_empty() {
            return self.constant(1, 0);
        }
        let first = self.literal_is(value, &literals[0])?;
        self.or_literals(first, value, &literals[1..])
    }
}

/// Joins the end of an arm with what comes after it: each of its keys has a choice.
fn join(alloc: Global, widths: &NameMap<i64>, walk: &mut Walk, end: &ArmEnd) -> Result<(), NoMemory>
    requires fits { Fits walk.old }
    requires shows { Shows (width_at (value_of widths.now)) walk.old }
    requires test { IsWithin walk.old.terms end.now.test }
    requires within { HaveTerms walk.old.terms end.now.firsts.items }
    ensures fits { OnOk result (Fits walk.new) }
    ensures shows { OnOk result (Shows (width_at (value_of widths.now)) walk.new) }
    ensures terms { OnOk result (Extends walk.old.terms walk.new.terms) }
    ensures joins { OnOk result (JoinsArm (width_at (value_of widths.now)) end.now walk.old walk.new) }
{
    let chosen = choose(alloc, walk, end.test, &end.firsts)?;
    set_all(alloc, widths, walk, &chosen)?;
    Ok(())
}

/// Joins the ends of arms, from the last one back to the first.
pub(crate) fn join_all(
    alloc: Global,
    widths: &NameMap<i64>,
    walk: &mut Walk,
    ends: &[ArmEnd],
) -> Result<(), NoMemory>
    requires fits { Fits walk.old }
    requires shows { Shows (width_at (value_of widths.now)) walk.old }
    requires within { EndsHaveTerms walk.old.terms ends.now }
    ensures { OnOk result (JoinsArms (width_at (value_of widths.now)) ends.now walk.old walk.new) }
{
    let mut left = ends.len();
    while left > 0 {
        left -= 1;
        join(alloc, widths, walk, &ends[left])?;
    }
    Ok(())
}
