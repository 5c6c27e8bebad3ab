//! The keywords, and which word is one. Words are compared with the keywords of their first letter alone: most words are names.

ghost use Rattle.std.specs.Prelude.{◌≡◌, bytes_eq, find};
ghost use Rattle.gen_token.specs.Keywords.{keyword_text, keywords, keyword_of};

/// A word of the language that is no name.
#[derive(Clone, Copy, PartialEq, Eq)]
pub enum Keyword {
    Module,
    Input,
    Output,
    Wire,
    Reg,
    Inst,
    Comb,
    Ff,
    For,
    In,
    Gen,
    If,
    Else,
    Let,
    Bits,
    Cat,
    Zext,
    Mux,
    All,
    Any,
    Parity,
    Clk,
    Case,
    Default,
    Import,
}

impl Keyword {
    /// How a source spells it.
    pub fn text(self) -> &'static str
        ensures { result.now ≡ keyword_text self }
    {
        match self {
            Keyword::Module => "module",
            Keyword::Input => "input",
            Keyword::Output => "output",
            Keyword::Wire => "wire",
            Keyword::Reg => "reg",
            Keyword::Inst => "inst",
            Keyword::Comb => "comb",
            Keyword::Ff => "ff",
            Keyword::For => "for",
            Keyword::In => "in",
            Keyword::Gen => "gen",
            Keyword::If => "if",
            Keyword::Else => "else",
            Keyword::Let => "let",
            Keyword::Bits => "bits",
            Keyword::Cat => "cat",
            Keyword::Zext => "zext",
            Keyword::Mux => "mux",
            Keyword::All => "all",
            Keyword::Any => "any",
            Keyword::Parity => "parity",
            Keyword::Clk => "clk",
            Keyword::Case => "case",
            Keyword::Default => "default",
            Keyword::Import => "import",
        }
    }

    /// Whether a word is this keyword.
    fn is_spelled(self, word: &[u8]) -> bool
        ensures { result ≡ bytes_eq (keyword_text self) word.now }
    {
        self.text().as_bytes() == word
    }
}

/// The keywords with the first letter of a word, in the order of all of them.
fn alike(word: &[u8]) -> &'static [Keyword]
    ensures { find (λ keyword. bytes_eq (keyword_text keyword) word.now) keywords ≡ find (λ keyword. bytes_eq (keyword_text keyword) word.now) result.now }
{
    match word {
        [b'a', ..] => &[Keyword::All, Keyword::Any],
        [b'b', ..] => &[Keyword::Bits],
        [b'c', ..] => &[Keyword::Comb, Keyword::Cat, Keyword::Clk, Keyword::Case],
        [b'd', ..] => &[Keyword::Default],
        [b'e', ..] => &[Keyword::Else],
        [b'f', ..] => &[Keyword::Ff, Keyword::For],
        [b'g', ..] => &[Keyword::Gen],
        [b'i', ..] => &[
            Keyword::Input,
            Keyword::Inst,
            Keyword::In,
            Keyword::If,
            Keyword::Import,
        ],
        [b'l', ..] => &[Keyword::Let],
        [b'm', ..] => &[Keyword::Module, Keyword::Mux],
        [b'o', ..] => &[Keyword::Output],
        [b'p', ..] => &[Keyword::Parity],
        [b'r', ..] => &[Keyword::Reg],
        [b'w', ..] => &[Keyword::Wire],
        [b'z', ..] => &[Keyword::Zext],
        _ => &[],
    }
}

/// The keyword that a word is. Only those with its first letter are looked at.
pub(crate) fn keyword_of(word: &[u8]) -> Option<Keyword>
    ensures { result ≡ keyword_of word.now }
{
    first_keyword(alike(word), word)
}

/// The first of these keywords that a word is.
fn first_keyword(keywords: &[Keyword], word: &[u8]) -> Option<Keyword>
    ensures { result ≡ find (λ keyword. bytes_eq (keyword_text keyword) word.now) keywords.now }
{
    keywords
        .iter()
        .copied()
        .find(|keyword| keyword.is_spelled(word))
}
