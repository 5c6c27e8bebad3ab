//! Laws: what a place was made of is what it tells, so that a number can stand for both.

ghost use Rattle.std.specs.Prelude.{ℕ};
ghost use Rattle.places.specs.Places.{TellsBoth, IsOfBoth, IsItsLine};

/// Laws: a place tells its file and its line; each number is the place of its file and its line; and a place in file 0 is its line.
pub fn a_place()
    ensures tells { (file line : ℕ) → TellsBoth file line }
    ensures is_of { (place : ℕ) → IsOfBoth place }
    ensures first { (line : ℕ) → IsItsLine line }
{}
