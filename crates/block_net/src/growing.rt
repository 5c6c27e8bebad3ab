//! Terms put in behind those that are there. An operand that is missing, as a name was unset, leaves none.

ghost use Rattle.std.specs.Prelude.{◌≡◌, IfOk, OnOk, Some, codes, ◌++◌};
ghost use Rattle.bv_core.specs.declared.operators.Op1.TheVariants as op1;
ghost use Rattle.tree_core.specs.Tree.{One, Two, Mux, Const};
ghost use Rattle.exec_core.specs.Exec.{on_one, on_two, on_three};
ghost use Rattle.exec_core.specs.Trees.{tree_in};
ghost use Rattle.design_exec.specs.Processes.{binary_of, unary_of};
ghost use Rattle.design_core.specs.Widths.{bits};
ghost use Rattle.block_net.specs.Terms.{IsWithin, Stands, tree_for};
ghost use Rattle.block_net.specs.Source.{expr_in};
ghost use Rattle.block_net.specs.Walks.{Fits, Grown, env_of};
ghost use Rattle.exec_core.specs.Block.{Now};

use crate::walk::Walk;
use crate::{Term, TermId};
use design_core::{Expr, Literal, Op, UnOp, below};
use std::alloc::Global;
use text_core::{NoMemory, Text};

impl Walk {
    /// A constant.
    pub(crate) fn constant(&mut self, width: i64, value: u128) -> Result<Option<TermId>, NoMemory>
        requires { Fits self.old }
        ensures grown { OnOk result (Grown self.old self.new) }
        ensures stands { IfOk result (λ id. Stands self.new.terms id (Some (Const (record { width = bits width; value = value })))) }
    {
        let id = self.terms.push(Term::Value { width, value })?;
        Ok(id)
    }

    /// An operator on a term, if there is one.
    pub(crate) fn unary(&mut self, op: UnOp, a: Option<TermId>) -> Result<Option<TermId>, NoMemory>
        requires fits { Fits self.old }
        requires within { IsWithin self.old.terms a }
        ensures grown { OnOk result (Grown self.old self.new) }
        ensures stands { IfOk result (λ id. Stands self.new.terms id (on_one (One (unary_of op)) (tree_for self.old.terms a))) }
    {
        let id = self.terms.unary(op, a)?;
        Ok(id)
    }

    /// A term filled with 0, if there is one.
    fn zext(&mut self, a: Option<TermId>, width: i64) -> Result<Option<TermId>, NoMemory>
        requires fits { Fits self.old }
        requires within { IsWithin self.old.terms a }
        ensures grown { OnOk result (Grown self.old self.new) }
        ensures stands { IfOk result (λ id. Stands self.new.terms id (on_one (One (op1.Zext (bits width))) (tree_for self.old.terms a))) }
    {
        let id = self.terms.zext(a, width)?;
        Ok(id)
    }

    /// Bits of a term, if there is one.
    pub(crate) fn slice(
        &mut self,
        a: Option<TermId>,
        high: i64,
        low: i64,
    ) -> Result<Option<TermId>, NoMemory>
        requires fits { Fits self.old }
        requires within { IsWithin self.old.terms a }
        ensures grown { OnOk result (Grown self.old self.new) }
        ensures stands { IfOk result (λ id. Stands self.new.terms id (on_one (One (op1.Slice (bits high) (bits low))) (tree_for self.old.terms a))) }
    {
        let id = self.terms.slice(a, high, low)?;
        Ok(id)
    }

    /// An operator on two terms, if there are both.
    pub(crate) fn binary(
        &mut self,
        op: Op,
        a: Option<TermId>,
        b: Option<TermId>,
    ) -> Result<Option<TermId>, NoMemory>
        requires fits { Fits self.old }
        requires first { IsWithin self.old.terms a }
        requires second { IsWithin self.old.terms b }
        ensures grown { OnOk result (Grown self.old self.new) }
        ensures stands { IfOk result (λ id. Stands self.new.terms id (on_two (Two (binary_of op)) (tree_for self.old.terms a) (tree_for self.old.terms b))) }
    {
        let id = self.terms.binary(op, a, b)?;
        Ok(id)
    }

    /// A choice between two terms by a third, if there are all.
    pub(crate) fn mux(
        &mut self,
        test: Option<TermId>,
        a: Option<TermId>,
        b: Option<TermId>,
    ) -> Result<Option<TermId>, NoMemory>
        requires fits { Fits self.old }
        requires test { IsWithin self.old.terms test }
        requires first { IsWithin self.old.terms a }
        requires second { IsWithin self.old.terms b }
        ensures grown { OnOk result (Grown self.old self.new) }
        ensures stands { IfOk result (λ id. Stands self.new.terms id
            (on_three Mux (tree_for self.old.terms test) (tree_for self.old.terms a) (tree_for self.old.terms b))) }
    {
        let id = self.terms.mux(test, a, b)?;
        Ok(id)
    }

    /// What an output of a child has, as a name of its parent.
    fn output_of(
        &mut self,
        alloc: Global,
        child: &[u8],
        port: &[u8],
    ) -> Result<Option<TermId>, NoMemory>
        requires { Fits self.old }
        ensures grown { OnOk result (Grown self.old self.new) }
        ensures stands { IfOk result (λ id. Stands self.new.terms id (env_of self.old (Now (child.now ++ (codes "." ++ port.now))))) }
    {
        let name = below(alloc, child, port)?;
        self.now_of(alloc, name.bytes())
    }

    /// The tree of an expression, where each name that it reads has one.
    pub(crate) fn term_of(&mut self, alloc: Global, expr: &Expr) -> Result<Option<TermId>, NoMemory>
        requires { Fits self.old }
        ensures grown { OnOk result (Grown self.old self.new) }
        ensures stands { IfOk result (λ id. Stands self.new.terms id (tree_in (expr_in expr.now) (env_of self.old))) }
    {
        match expr {
            Expr::Read(name) => self.now_of(alloc, name.bytes()),
            Expr::Out(child, port) => self.output_of(alloc, child.bytes(), port.bytes()),
            Expr::Value(literal) => self.constant(literal.width, literal.value),
            Expr::Un(op, a) => {
                let a = self.term_of(alloc, a)?;
                self.unary(*op, a)
            }
            Expr::Bin(op, a, b) => {
                let a = self.term_of(alloc, a)?;
                let b = self.term_of(alloc, b)?;
                self.binary(*op, a, b)
            }
            Expr::Mux(test, a, b) => {
                let test = self.term_of(alloc, test)?;
                let a = self.term_of(alloc, a)?;
                let b = self.term_of(alloc, b)?;
                self.mux(test, a, b)
            }
            Expr::Zext(a, width) => {
                let a = self.term_of(alloc, a)?;
                self.zext(a, *width)
            }
            Expr::Slice(a, high, low) => {
                let a = self.term_of(alloc, a)?;
                self.slice(a, *high, *low)
            }
        }
    }
}
