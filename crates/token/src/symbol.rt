// Operators and punctuation.
ghost use Rattle.std.specs.Prelude.{◌≡◌, ◌+◌, ◌≤◌, ◌<◌, length};
ghost use Rattle.token.specs.Token.{pair_kind, single_kind, symbol_of, symbol_token, Spans};

use crate::{Punctuation, Token, TokenKind, is_token};
use base::bytes::byte_at;
use base::order::Operator;

#[tactic(auto, unfolding(crate::specs::Token::pair_kind))]
pub(crate) fn pair_kind(b: u8, c: u8) -> TokenKind
    ensures { result ≡ pair_kind b c }
{
    match (b, c) {
        (b'<', b'>') => TokenKind::Compare(Operator::Unequal),
        (b'<', b'=') => TokenKind::Compare(Operator::AtMost),
        (b'>', b'=') => TokenKind::Compare(Operator::AtLeast),
        _ => TokenKind::NoToken,
    }
}

#[tactic(auto, unfolding(crate::specs::Token::single_kind))]
pub(crate) fn single_kind(b: u8) -> TokenKind
    ensures { result ≡ single_kind b }
{
    match b {
        b'=' => TokenKind::Compare(Operator::Equal),
        b'<' => TokenKind::Compare(Operator::Less),
        b'>' => TokenKind::Compare(Operator::Greater),
        b'(' => TokenKind::Symbol(Punctuation::Open),
        b')' => TokenKind::Symbol(Punctuation::Close),
        b'[' => TokenKind::Symbol(Punctuation::OpenIndex),
        b']' => TokenKind::Symbol(Punctuation::CloseIndex),
        b'{' => TokenKind::Symbol(Punctuation::OpenList),
        b'}' => TokenKind::Symbol(Punctuation::CloseList),
        b',' => TokenKind::Symbol(Punctuation::Comma),
        b'.' => TokenKind::Symbol(Punctuation::Dot),
        _ => TokenKind::NoToken,
    }
}

#[tactic(auto, unfolding(crate::specs::Token::symbol_of))]
pub(crate) fn symbol_of(k: TokenKind, s: usize, n: usize) -> Token
    requires { s + n ≤ 0x8000000000000000 }
    ensures { result ≡ symbol_of k s n }
{
    if is_token(k) {
        return Token {
            kind: k,
            start: s,
            end: s + n,
        };
    }
    Token::none(s)
}

pub(crate) fn symbol_token(q: &[u8], s: usize) -> Token
    requires { s < length q.now }
    ensures { (result ≡ symbol_token q.now s) × Spans (length q.now) s result }
{
    let b = byte_at(q, s);
    let kind = pair_kind(b, byte_at(q, s + 1));
    if is_token(kind) {
        return Token {
            kind,
            start: s,
            end: s + 2,
        };
    }
    symbol_of(single_kind(b), s, 1)
}
