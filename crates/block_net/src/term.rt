//! Terms, the trees of a block as shared nodes: what is assigned twice is kept once, and no tree is ever copied.

use design_core::{Op, UnOp};
use text_core::Text;

/// The number of a term among those of its block.
#[derive(Clone, Copy, PartialEq, Eq)]
pub struct TermId(pub usize);

/// A term of a block: an expression over the names of an instance, whose operands are terms with lower numbers. Widths and
/// places are as they were written.
#[derive(Drop)]
pub enum Term {
    /// What the signal of this name has settled at; or, for a register, what it holds.
    Leaf(Text),
    /// A constant of this width.
    Value {
        /// Its width in bits.
        width: i64,
        /// Its value.
        value: u128,
    },
    /// An operator on a term.
    Unary(UnOp, TermId),
    /// An operator on two terms.
    Binary(Op, TermId, TermId),
    /// The second term where the first is 1, and otherwise the third.
    Mux(TermId, TermId, TermId),
    /// A term filled with 0 to this width.
    Zext(TermId, i64),
    /// The bits of a term from the first number down to the second.
    Slice(TermId, i64, i64),
}
