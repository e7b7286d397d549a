// The number of a kind; whether a token is of a kind, or a word.
ghost use Rattle.std.specs.Prelude.{◌≡◌};
ghost use Rattle.terminal.specs.Terminal.{code, same, word};

use token::{Token, TokenKind};

pub fn code_of(k: TokenKind) -> u8
    ensures { result ≡ code k }
{
    match k {
        TokenKind::End => 0,
        TokenKind::NoToken => 1,
        TokenKind::Name => 2,
        TokenKind::Text => 3,
        TokenKind::Word(w) => 4 + w as u8,
        TokenKind::Number(f) => 13 + f as u8,
        TokenKind::Compare(o) => 17 + o as u8,
        TokenKind::Symbol(m) => 23 + m as u8,
    }
}

// Whether a token is of a kind.
#[tactic(auto, unfolding(crate::specs::Terminal::same))]
pub fn is_kind(t: Token, k: TokenKind) -> bool
    ensures { result ≡ same t k }
{
    t.kind == k
}

#[tactic(auto, unfolding(crate::specs::Terminal::word))]
pub fn is_word(t: Token) -> bool
    ensures { result ≡ word t }
{
    matches!(t.kind, TokenKind::Name | TokenKind::Word(_))
}
