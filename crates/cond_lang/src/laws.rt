//! Laws of conditions.

ghost use Rattle.std.specs.Prelude.{ℕ, List};
ghost use Rattle.gen_tree.specs.Tree.{Expr};
ghost use Rattle.cond_lang.specs.Judged.{Scope};
ghost use Rattle.cond_lang.specs.Laws.{HasOneAnswer, HasToldWidth, PartsAreSpelled};

/// A law: a text is read as one expression at most, and where it is read there is no place at which it stops being a condition.
pub fn one_answer()
    ensures { (text : List ℕ) → HasOneAnswer text }
{}

/// A law: an expression that has a width by the rules of the operators is never refused for its width, and one that is refused for it is
/// told at the first token of the first part that has none, where all that is judged before has one.
pub fn widths_are_told()
    ensures { (scope : Scope) (e : Expr) (offsets : List ℕ) → HasToldWidth scope e offsets }
{}

/// A law: the parts of an expression, of which the first that does not fit is told, are spelled at the tokens by whose numbers they are
/// told.
pub fn parts_are_spelled()
    ensures { PartsAreSpelled }
{}
