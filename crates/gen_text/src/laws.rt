//! What holds of the grammar alone: one reading, one spelling, one place of a fault; and sources worked by hand.

ghost use Rattle.std.specs.Prelude.{ℕ, List};
ghost use Rattle.gen_text.specs.Laws.{HasOneTree, HasOnePlace, is_sample_source, is_sample_fault, is_sample_import, is_late_import, is_lone_import};
ghost use Rattle.gen_text.specs.Source.{HasOneAnswer};
ghost use Rattle.gen_token.specs.Words.{Tok};

/// A law: in a file a text is read as one source at most, has no fault but want of memory where it is read, and one other fault
/// at most.
pub fn one_answer()
    ensures { (file : ℕ) (text : List ℕ) → HasOneAnswer file text }
{}

/// A law: two trees that one list of tokens is spelled by are equal, however many brackets are open in it.
pub fn one_spelling()
    ensures { (tokens : List Tok) → HasOneTree tokens }
{}

/// A law: a list of tokens has one place at most from which on it is no source.
pub fn one_place()
    ensures { (tokens : List Tok) → HasOnePlace tokens }
{}

/// The grammar and the place of a fault, computed by hand on a small source and on one with a token too many; and on an import
/// before a module, behind it, and with none.
pub fn spells_the_sample()
    ensures source { is_sample_source }
    ensures fault { is_sample_fault }
    ensures import { is_sample_import }
    ensures late { is_late_import }
    ensures lone { is_lone_import }
{}
