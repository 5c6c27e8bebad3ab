//! The terms of a block. Each stands above its operands, so a term is a tree by its number alone.

ghost use Rattle.std.specs.Prelude.{◌≡◌, ◌<◌, ◌∷◌, ◌++◌, [], length, IfOk, OnOk, Some};
ghost use Rattle.exec_core.specs.Exec.{on_one, on_two, on_three};
ghost use Rattle.tree_core.specs.Tree.{One, Two, Mux};
ghost use Rattle.bv_core.specs.declared.operators.Op1.TheVariants as op1;
ghost use Rattle.design_exec.specs.Processes.{unary_of, binary_of};
ghost use Rattle.design_core.specs.Widths.{bits};
ghost use Rattle.block_net.specs.Terms.{AreNumbered, Extends, IsWithin, OperandsBelow, Stands, term_tree, tree_at, tree_for, trees_of};

use crate::{Term, TermId};
use design_core::{Op, UnOp};
use std::alloc::Global;
use std::marker::Model;
use text_core::NoMemory;

/// The terms of a block, numbered above their operands. Contracts see the list of them, in which the id of each is its place.
#[derive(Drop)]
pub(crate) struct Terms {
    terms: Vec<Term>,
}

impl Model for Terms {
    ghost use Rattle.std.specs.Prelude.{List};
    ghost use Rattle.block_net.specs.declared.term.Term.{Term};
    ghost use Rattle.block_net.specs.Terms.{AreNumbered};

    ghost Value = { List Term };

    ghost view = { λ t. t.terms.items };

    ghost invariant = { λ t. AreNumbered t.terms.items };
}

impl Terms {
    /// No terms. Takes no memory.
    pub(crate) fn new(alloc: Global) -> Terms
        ensures { result ≡ [] }
    {
        Terms {
            terms: Vec::new(alloc),
        }
    }

    /// The terms, in the order of their numbers: each is above its operands.
    pub fn items(&self) -> &[Term]
        ensures terms { result.now ≡ self.now }
        ensures numbered { AreNumbered self.now }
    {
        &self.terms
    }

    /// The term of an id.
    pub(crate) fn term(&self, id: TermId) -> &Term
        requires { id.0 < length self.now }
        ensures tree { tree_at (trees_of self.now) id.0 ≡ term_tree (trees_of self.now) result.now }
        ensures below { OperandsBelow id.0 result.now }
    {
        &self.terms[id.0]
    }

    /// Puts a term last, whose operands are there.
    pub(crate) fn push(&mut self, term: Term) -> Result<Option<TermId>, NoMemory>
        requires { OperandsBelow (length self.old) term }
        ensures extends { OnOk result (Extends self.old self.new) }
        ensures stands { IfOk result (λ id. Stands self.new id (Some (term_tree (trees_of self.old) term))) }
    {
        let id = TermId(self.terms.len());
        self.terms.push(term)?;
        Ok(Some(id))
    }

    /// An operator on a term, if there is one.
    pub(crate) fn unary(&mut self, op: UnOp, a: Option<TermId>) -> Result<Option<TermId>, NoMemory>
        requires { IsWithin self.old a }
        ensures extends { OnOk result (Extends self.old self.new) }
        ensures stands { IfOk result (λ id. Stands self.new id (on_one (One (unary_of op)) (tree_for self.old a))) }
    {
        match a {
            Some(a) => self.push(Term::Unary(op, a)),
            None => Ok(None),
        }
    }

    /// A term filled with 0 to a width, if there is one.
    pub(crate) fn zext(&mut self, a: Option<TermId>, width: i64) -> Result<Option<TermId>, NoMemory>
        requires { IsWithin self.old a }
        ensures extends { OnOk result (Extends self.old self.new) }
        ensures stands { IfOk result (λ id. Stands self.new id (on_one (One (op1.Zext (bits width))) (tree_for self.old a))) }
    {
        match a {
            Some(a) => self.push(Term::Zext(a, width)),
            None => Ok(None),
        }
    }

    /// Bits of a term, if there is one.
    pub(crate) fn slice(
        &mut self,
        a: Option<TermId>,
        high: i64,
        low: i64,
    ) -> Result<Option<TermId>, NoMemory>
        requires { IsWithin self.old a }
        ensures extends { OnOk result (Extends self.old self.new) }
        ensures stands { IfOk result (λ id. Stands self.new id (on_one (One (op1.Slice (bits high) (bits low))) (tree_for self.old a))) }
    {
        match a {
            Some(a) => self.push(Term::Slice(a, high, low)),
            None => Ok(None),
        }
    }

    /// An operator on two terms, if there are both.
    pub(crate) fn binary(
        &mut self,
        op: Op,
        a: Option<TermId>,
        b: Option<TermId>,
    ) -> Result<Option<TermId>, NoMemory>
        requires first { IsWithin self.old a }
        requires second { IsWithin self.old b }
        ensures extends { OnOk result (Extends self.old self.new) }
        ensures stands { IfOk result (λ id. Stands self.new id (on_two (Two (binary_of op)) (tree_for self.old a) (tree_for self.old b))) }
    {
        match (a, b) {
            (Some(a), Some(b)) => self.push(Term::Binary(op, a, b)),
            (Some(_), None) => Ok(None),
            (None, _) => Ok(None),
        }
    }

    /// A choice between two terms by a third, if there are all.
    pub(crate) fn mux(
        &mut self,
        test: Option<TermId>,
        a: Option<TermId>,
        b: Option<TermId>,
    ) -> Result<Option<TermId>, NoMemory>
        requires test { IsWithin self.old test }
        requires first { IsWithin self.old a }
        requires second { IsWithin self.old b }
        ensures extends { OnOk result (Extends self.old self.new) }
        ensures stands { IfOk result (λ id. Stands self.new id (on_three Mux (tree_for self.old test) (tree_for self.old a) (tree_for self.old b))) }
    {
        match (test, a, b) {
            (Some(test), Some(a), Some(b)) => self.push(Term::Mux(test, a, b)),
            (Some(_), Some(_), None) => Ok(None),
            (Some(_), None, _) => Ok(None),
            (None, _, _) => Ok(None),
        }
    }
}
