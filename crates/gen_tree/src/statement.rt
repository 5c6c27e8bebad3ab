//! The tree of a statement. Lines are places, as those of all trees: the number of the file and the line in it.

use crate::{Cmp, Expr, Fam, Int, Lit};
use std::boxed::Box;
use text_core::Text;

/// A statement of a block.
#[derive(Drop)]
#[cycle(statements)]
pub enum Stmt {
    /// `target = value;` in a `comb`, `target <= value;` in an `ff`; with a part `target[high:low]` in place of the target
    Assign {
        line: u32,
        target: Fam,
        part: Option<(Box<Int>, Box<Int>)>,
        value: Expr,
    },
    /// `let name = value;`
    Let {
        line: u32,
        name: Fam,
        value: Expr,
    },
    /// `if test { yes } else { no }`; None: no `else` stands there
    If {
        line: u32,
        test: Expr,
        yes: Vec<Stmt>,
        no: Option<Vec<Stmt>>,
    },
    /// `case value { arms default { other } }`, one arm at least; None: no `default` stands there
    Case {
        line: u32,
        value: Expr,
        arms: Vec<Arm>,
        other: Option<Vec<Stmt>>,
    },
    /// `for var in from..to { body }`
    For {
        line: u32,
        var: Text,
        from: Int,
        to: Int,
        body: Vec<Stmt>,
    },
    /// `gen if (left cmp right) { yes } else { no }`; None: no `else` stands there
    GenIf {
        line: u32,
        left: Int,
        cmp: Cmp,
        right: Int,
        yes: Vec<Stmt>,
        no: Option<Vec<Stmt>>,
    },
}

/// `tests: { body }`, an arm of a `case`; its literals, one at least, stand with commas between them
#[derive(Drop)]
#[cycle(statements)]
pub struct Arm {
    pub tests: Vec<Lit>,
    pub body: Vec<Stmt>,
}
