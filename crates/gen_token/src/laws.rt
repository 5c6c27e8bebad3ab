//! What holds of the definitions of tokens alone: a text has one reading, and the reader takes the longest word.

ghost use Rattle.std.specs.Prelude.{ℕ, List};
ghost use Rattle.gen_token.specs.Laws.{HasOneList, PlacesTokens, ReadsTokens};

/// A law: each text has one list of tokens and one end. It has its tokens or one bad line, and never both.
pub fn one_list()
    ensures { (text : List ℕ) → HasOneList text }
{}

/// A law: in a file of any number the tokens of a text are its tokens, each at its place in that file.
pub fn placed_tokens()
    ensures { (text : List ℕ) → PlacesTokens text }
{}

/// A law: the token that is read in front of a text is the longest word there, with nothing directly behind it that
/// goes on with it; and where nothing is read, no token begins.
pub fn longest()
    ensures { (text : List ℕ) → ReadsTokens text }
{}
