//! Tests of `gen_token`.

use gen_token::{Keyword, Mark, Placed, Token, TokenFault, tokens_of};
use std::test::Fail;

/// Texts, and what they are read as: each token behind its line.
static READINGS: [(&[u8], &[(u32, Token<'static>)]); 27] = [
    (b"", &[]),
    (b"// note", &[]),
    (b"a//b", &[(1, Token::Name(b"a"))]),
    (b"..", &[(1, Token::Mark(Mark::DotDot))]),
    (
        b"...",
        &[(1, Token::Mark(Mark::DotDot)), (1, Token::Mark(Mark::Dot))],
    ),
    (b"<=", &[(1, Token::Mark(Mark::LessEquals))]),
    (b"<<", &[(1, Token::Mark(Mark::LessLess))]),
    (
        b"<<=",
        &[
            (1, Token::Mark(Mark::LessLess)),
            (1, Token::Mark(Mark::Equals)),
        ],
    ),
    (
        b"=== ==",
        &[
            (1, Token::Mark(Mark::EqualsEquals)),
            (1, Token::Mark(Mark::Equals)),
            (1, Token::Mark(Mark::EqualsEquals)),
        ],
    ),
    (b"!=", &[(1, Token::Mark(Mark::NotEquals))]),
    (b">>", &[(1, Token::Mark(Mark::GreaterGreater))]),
    (
        b"8'hFf",
        &[(
            1,
            Token::Literal {
                width: 8,
                value: 255,
            },
        )],
    ),
    (
        b"8'd255",
        &[(
            1,
            Token::Literal {
                width: 8,
                value: 255,
            },
        )],
    ),
    (
        b"4611686018427387904",
        &[(1, Token::Number(4611686018427387904))],
    ),
    (
        b"4611686018427387904'h1",
        &[(
            1,
            Token::Literal {
                width: 4611686018427387904,
                value: 1,
            },
        )],
    ),
    (
        b"128'hffffffffffffffffffffffffffffffff",
        &[(
            1,
            Token::Literal {
                width: 128,
                value: 340282366920938463463374607431768211455,
            },
        )],
    ),
    (
        b"128'd340282366920938463463374607431768211455",
        &[(
            1,
            Token::Literal {
                width: 128,
                value: 340282366920938463463374607431768211455,
            },
        )],
    ),
    (
        b"128'h000000000000000000000000000000000000001",
        &[(
            1,
            Token::Literal {
                width: 128,
                value: 1,
            },
        )],
    ),
    (
        b"00'h0 007",
        &[
            (1, Token::Literal { width: 0, value: 0 }),
            (1, Token::Number(7)),
        ],
    ),
    (
        b"if iff",
        &[(1, Token::Keyword(Keyword::If)), (1, Token::Name(b"iff"))],
    ),
    (
        b"module module1",
        &[
            (1, Token::Keyword(Keyword::Module)),
            (1, Token::Name(b"module1")),
        ],
    ),
    (
        b"if_ IF",
        &[(1, Token::Name(b"if_")), (1, Token::Name(b"IF"))],
    ),
    (
        b"a\r\nb\r\n\r\nc",
        &[
            (1, Token::Name(b"a")),
            (2, Token::Name(b"b")),
            (4, Token::Name(b"c")),
        ],
    ),
    (
        b"a.b[3..0]",
        &[
            (1, Token::Name(b"a")),
            (1, Token::Mark(Mark::Dot)),
            (1, Token::Name(b"b")),
            (1, Token::Mark(Mark::LeftBracket)),
            (1, Token::Number(3)),
            (1, Token::Mark(Mark::DotDot)),
            (1, Token::Number(0)),
            (1, Token::Mark(Mark::RightBracket)),
        ],
    ),
    (
        b"module input output wire reg inst comb ff for in gen if else let bits cat zext mux all any parity clk case default import",
        &[
            (1, Token::Keyword(Keyword::Module)),
            (1, Token::Keyword(Keyword::Input)),
            (1, Token::Keyword(Keyword::Output)),
            (1, Token::Keyword(Keyword::Wire)),
            (1, Token::Keyword(Keyword::Reg)),
            (1, Token::Keyword(Keyword::Inst)),
            (1, Token::Keyword(Keyword::Comb)),
            (1, Token::Keyword(Keyword::Ff)),
            (1, Token::Keyword(Keyword::For)),
            (1, Token::Keyword(Keyword::In)),
            (1, Token::Keyword(Keyword::Gen)),
            (1, Token::Keyword(Keyword::If)),
            (1, Token::Keyword(Keyword::Else)),
            (1, Token::Keyword(Keyword::Let)),
            (1, Token::Keyword(Keyword::Bits)),
            (1, Token::Keyword(Keyword::Cat)),
            (1, Token::Keyword(Keyword::Zext)),
            (1, Token::Keyword(Keyword::Mux)),
            (1, Token::Keyword(Keyword::All)),
            (1, Token::Keyword(Keyword::Any)),
            (1, Token::Keyword(Keyword::Parity)),
            (1, Token::Keyword(Keyword::Clk)),
            (1, Token::Keyword(Keyword::Case)),
            (1, Token::Keyword(Keyword::Default)),
            (1, Token::Keyword(Keyword::Import)),
        ],
    ),
    (
        b"{}()[];:,.+-*&|^~#=<",
        &[
            (1, Token::Mark(Mark::LeftBrace)),
            (1, Token::Mark(Mark::RightBrace)),
            (1, Token::Mark(Mark::LeftParen)),
            (1, Token::Mark(Mark::RightParen)),
            (1, Token::Mark(Mark::LeftBracket)),
            (1, Token::Mark(Mark::RightBracket)),
            (1, Token::Mark(Mark::Semicolon)),
            (1, Token::Mark(Mark::Colon)),
            (1, Token::Mark(Mark::Comma)),
            (1, Token::Mark(Mark::Dot)),
            (1, Token::Mark(Mark::Plus)),
            (1, Token::Mark(Mark::Minus)),
            (1, Token::Mark(Mark::Star)),
            (1, Token::Mark(Mark::Ampersand)),
            (1, Token::Mark(Mark::Bar)),
            (1, Token::Mark(Mark::Caret)),
            (1, Token::Mark(Mark::Tilde)),
            (1, Token::Mark(Mark::Hash)),
            (1, Token::Mark(Mark::Equals)),
            (1, Token::Mark(Mark::Less)),
        ],
    ),
    (
        b".. == != <= << >>",
        &[
            (1, Token::Mark(Mark::DotDot)),
            (1, Token::Mark(Mark::EqualsEquals)),
            (1, Token::Mark(Mark::NotEquals)),
            (1, Token::Mark(Mark::LessEquals)),
            (1, Token::Mark(Mark::LessLess)),
            (1, Token::Mark(Mark::GreaterGreater)),
        ],
    ),
];

/// Texts with a place where no token begins, and its line.
static BAD: [(&[u8], u32); 21] = [
    (b"!", 1),
    (b">", 1),
    (b"4611686018427387905", 1),
    (b"4611686018427387905'h1", 1),
    (b"128'h100000000000000000000000000000000", 1),
    (b"128'd340282366920938463463374607431768211456", 1),
    (b"8'", 1),
    (b"8'h", 1),
    (b"8'q", 1),
    (b"'", 1),
    (b"8 'h1", 1),
    (b"12ab", 1),
    (b"1_", 1),
    (b"8'd3f", 1),
    (b"8'hFg", 1),
    (b"1'd5'h3", 1),
    (b"_a", 1),
    (b"/", 1),
    (b"a / b", 1),
    (b"a // x\nb//\n!", 3),
    (b"a;\n\n // c\n$", 4),
];

/// Whether a token is this one.
fn is(token: &Token<'_>, wanted: &Token<'_>) -> bool {
    match token {
        Token::Name(name) => matches!(wanted, Token::Name(other) if name == other),
        Token::Number(number) => matches!(wanted, Token::Number(other) if number == other),
        Token::Literal { width, value } => {
            matches!(wanted, Token::Literal { width: w, value: v } if width == w && value == v)
        }
        Token::Keyword(word) => matches!(wanted, Token::Keyword(other) if word == other),
        Token::Mark(mark) => matches!(wanted, Token::Mark(other) if mark == other),
    }
}

/// Whether these are the tokens, each behind its line.
fn are(tokens: &[Placed<'_>], wanted: &[(u32, Token<'_>)]) -> bool {
    for (i, placed) in tokens.iter().enumerate() {
        if i >= wanted.len() || wanted[i].0 != placed.line || !is(&placed.token, &wanted[i].1) {
            return false;
        }
    }
    tokens.len() == wanted.len()
}

#[test]
fn a_text_has_its_tokens(rt: HostRuntime) -> Result<(), Fail> {
    for (i, (text, wanted)) in READINGS.iter().enumerate() {
        assert!(rt; text.len() < 1000);
        let Ok(tokens) = tokens_of(rt.alloc(), 0, text) else {
            return Err("the text has tokens".into());
        };
        assert!(rt; are(&tokens, wanted), "case {i}");
    }
    Ok(())
}

#[test]
fn a_text_has_its_first_bad_line(rt: HostRuntime) {
    for (i, (text, line)) in BAD.iter().enumerate() {
        assert!(rt; text.len() < 1000);
        let read = tokens_of(rt.alloc(), 0, text);
        let is = matches!(read, Err(TokenFault::BadToken { line: at }) if at == *line);
        assert!(rt; is, "case {i}");
    }
}
