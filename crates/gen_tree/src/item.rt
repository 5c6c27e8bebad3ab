//! The tree of what stands in a module behind its ports.

use crate::{Cmp, Expr, Fam, Int, Lit, Stmt};
use text_core::Text;

/// A parameter: in a module its default, at an `inst` its argument.
#[derive(Drop)]
pub struct Param {
    pub name: Text,
    pub value: Int,
}

/// What an input of a child is connected to.
#[derive(Drop)]
pub struct Conn {
    pub line: u32,
    pub port: Text,
    pub value: Expr,
}

/// What a module's body is made of, behind its ports.
#[derive(Drop)]
pub enum Item {
    /// `wire name: width;`
    Wire {
        line: u32,
        name: Fam,
        width: Int,
    },
    /// `reg name: width = start;`
    Reg {
        line: u32,
        name: Fam,
        width: Int,
        start: Lit,
    },
    /// `inst name: module(args) { conns }`; without arguments no brackets stand there
    Inst {
        line: u32,
        name: Fam,
        module: Text,
        args: Vec<Param>,
        conns: Vec<Conn>,
    },
    /// `comb { body }`
    Comb {
        line: u32,
        body: Vec<Stmt>,
    },
    /// `ff { body }`
    Ff {
        line: u32,
        body: Vec<Stmt>,
    },
    /// `for var in from..to { body }`
    For {
        line: u32,
        var: Text,
        from: Int,
        to: Int,
        body: Vec<Item>,
    },
    /// `gen if (left cmp right) { yes } else { no }`; None: no `else` stands there
    GenIf {
        line: u32,
        left: Int,
        cmp: Cmp,
        right: Int,
        yes: Vec<Item>,
        no: Option<Vec<Item>>,
    },
}
