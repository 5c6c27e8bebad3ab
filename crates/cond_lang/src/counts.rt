//! How many tokens a name of an expression has, and the numbers that stand in it.

ghost use Rattle.std.specs.Prelude.{◌≡◌, option_map};
ghost use Rattle.gen_tree.specs.View.{int_of};
ghost use Rattle.cond_lang.specs.Names.{number};
ghost use Rattle.cond_lang.specs.Judged.{index_tokens};

use gen_tree::Int;
use std::boxed::Box;

/// The number that an integer of a condition is.
pub(crate) fn number(int: &Int) -> u64
    ensures { result ≡ number (int_of int.now) }
{
    match int {
        Int::Num(number) => *number,
        Int::Var(_) | Int::Bin(_, _, _) => 0,
    }
}

/// How many tokens a name with this index, or with none, has.
pub(crate) fn index_tokens(index: &Option<Box<Int>>) -> usize
    ensures { result ≡ index_tokens (option_map (λ index. int_of index.value) index.now) }
{
    match index {
        None => 1,
        Some(_) => 3,
    }
}
