//! A statement of an elaborated block. What it is known by is asked by calls, so that who needs its line or its name alone does not
//! go through its kinds.

ghost use Rattle.std.specs.Prelude.{◌≡◌};
ghost use Rattle.design_core.specs.Heads.{head_of, let_name, name_at, stmt_value, target_name};
ghost use Rattle.design_core.specs.View.{expr_of, stmt_of};

use crate::{Expr, Literal};
use gen_scope::Scope;
use text_core::Text;

/// A statement of an elaborated block: its slot, its line, and the generator variables at it with their numbers, which it
/// shares with the other statements of its loop or its instance.
#[derive(Drop)]
#[cycle(statements)]
pub enum Stmt {
    /// What a wire or an output is from here on, in a `comb`; or what a register holds in the next cycle, in an `ff`. With a part
    /// these are its bits alone, from the first number down to the second; both are from -2^62 to 2^62.
    Assign {
        slot: u32,
        line: u32,
        gens: Scope,
        target: Text,
        part: Option<(i64, i64)>,
        value: Expr,
    },
    /// A name of the block alone.
    Let {
        slot: u32,
        line: u32,
        gens: Scope,
        name: Text,
        value: Expr,
    },
    /// One of two branches; None: no `else` stands there.
    If {
        slot: u32,
        line: u32,
        gens: Scope,
        test: Expr,
        yes: Vec<Stmt>,
        no: Option<Vec<Stmt>>,
    },
    /// The first arm that has a literal equal to the value, and otherwise the default; None: no default stands there.
    Case {
        slot: u32,
        line: u32,
        gens: Scope,
        value: Expr,
        arms: Vec<Arm>,
        other: Option<Vec<Stmt>>,
    },
}

/// An arm of a `case`: its literals, and the statements that run where the value is one of them. It has no slot.
#[derive(Drop)]
#[cycle(statements)]
pub struct Arm {
    pub tests: Vec<Literal>,
    pub body: Vec<Stmt>,
}

impl Stmt {
    /// Its slot, below 200,000.
    #[tactic(auto, using(crate::proofs::Views::design_views))]
    pub fn slot(&self) -> u32
        ensures { result ≡ (head_of (stmt_of self.now)).slot }
    {
        match self {
            Stmt::Assign { slot, .. } => *slot,
            Stmt::Let { slot, .. } => *slot,
            Stmt::If { slot, .. } => *slot,
            Stmt::Case { slot, .. } => *slot,
        }
    }

    /// Its line, from 1 on.
    #[tactic(auto, using(crate::proofs::Views::design_views))]
    pub fn line(&self) -> u32
        ensures { result ≡ (head_of (stmt_of self.now)).line }
    {
        match self {
            Stmt::Assign { line, .. } => *line,
            Stmt::Let { line, .. } => *line,
            Stmt::If { line, .. } => *line,
            Stmt::Case { line, .. } => *line,
        }
    }

    /// The generator variables at it, with their numbers.
    #[tactic(auto, using(crate::proofs::Views::design_views))]
    pub fn gens(&self) -> &Scope
        ensures { result.now ≡ (head_of (stmt_of self.now)).gens }
    {
        match self {
            Stmt::Assign { gens, .. } => gens,
            Stmt::Let { gens, .. } => gens,
            Stmt::If { gens, .. } => gens,
            Stmt::Case { gens, .. } => gens,
        }
    }

    /// The name that it assigns by `=` or `<=`; None: it is no such assignment.
    #[tactic(auto, using(crate::proofs::Views::design_views))]
    pub fn target(&self) -> Option<&[u8]>
        ensures { name_at result ≡ target_name (stmt_of self.now) }
    {
        match self {
            Stmt::Assign { target, .. } => Some(target.bytes()),
            Stmt::Let { .. } => None,
            Stmt::If { .. } => None,
            Stmt::Case { .. } => None,
        }
    }

    /// The name that it gives by `let`; None: it is no `let`.
    #[tactic(auto, using(crate::proofs::Views::design_views))]
    pub fn let_name(&self) -> Option<&[u8]>
        ensures { name_at result ≡ let_name (stmt_of self.now) }
    {
        match self {
            Stmt::Assign { .. } => None,
            Stmt::Let { name, .. } => Some(name.bytes()),
            Stmt::If { .. } => None,
            Stmt::Case { .. } => None,
        }
    }

    /// Its expression: what is assigned, what a `let` names, the condition of an `if`, or the value of a `case`.
    #[tactic(auto, using(crate::proofs::Views::design_views))]
    pub fn value(&self) -> &Expr
        ensures { expr_of result.now ≡ stmt_value (stmt_of self.now) }
    {
        match self {
            Stmt::Assign { value, .. } => value,
            Stmt::Let { value, .. } => value,
            Stmt::If { test, .. } => test,
            Stmt::Case { value, .. } => value,
        }
    }
}
