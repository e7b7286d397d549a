// The tokens of a query, each the longest that fits.
#![tactic(auto)]

pub mod first;
pub mod literals;
pub mod longest;
pub mod reader;
pub mod symbol;
pub mod word;

ghost use Rattle.std.specs.Prelude.{◌≡◌, ◌<◌, length};
ghost use Rattle.token.specs.Token.{token, is_token, token_at, word_or_number, token_after, SpansIf};

use crate::reader::{moved_past, next_token, reader_at};
use base::order::Operator;

// The reserved words of 000 5.3.1.
#[derive(Clone, Copy, PartialEq, Eq)]
pub enum Reserved {
    And,
    Any,
    Every,
    False,
    Like,
    Not,
    Null,
    Or,
    True,
}

// decimal-literal, binary-literal, hex-literal, real-literal.
#[derive(Clone, Copy, PartialEq, Eq)]
pub enum Form {
    Decimal,
    Binary,
    Hex,
    Real,
}

// `(` `)` `[` `]` `{` `}` `,` `.`
#[derive(Clone, Copy, PartialEq, Eq)]
pub enum Punctuation {
    Open,
    Close,
    OpenIndex,
    CloseIndex,
    OpenList,
    CloseList,
    Comma,
    Dot,
}

// NoToken: what stands there is no token, or a word or number that touches another.
#[derive(Clone, Copy, PartialEq, Eq)]
pub enum TokenKind {
    End,
    NoToken,
    Name,
    Word(Reserved),
    Number(Form),
    Text,
    Compare(Operator),
    Symbol(Punctuation),
}

// A token's bytes are those from `start` up to `end`.
#[derive(Clone, Copy, PartialEq, Eq)]
pub struct Token {
    pub kind: TokenKind,
    pub start: usize,
    pub end: usize,
}

impl Token {
    // What stands at a place where no token does.
    pub(crate) fn none(at: usize) -> Token
        ensures { result ≡ token TokenKind.NoToken at at }
    {
        Token {
            kind: TokenKind::NoToken,
            start: at,
            end: at,
        }
    }
}

#[tactic(auto, unfolding(crate::specs::Token::is_token))]
pub fn is_token(k: TokenKind) -> bool
    ensures { result ≡ is_token k }
{
    !matches!(k, TokenKind::End | TokenKind::NoToken)
}

#[tactic(auto, unfolding(crate::specs::Token::word_or_number))]
pub fn is_word_or_number(k: TokenKind) -> bool
    ensures { result ≡ word_or_number k }
{
    matches!(
        k,
        TokenKind::Name | TokenKind::Word(_) | TokenKind::Number(_)
    )
}

// The first token from a place on.
pub fn token_at(q: &[u8], at: usize) -> Token
    ensures { (result ≡ token_at q.now at) × SpansIf (length q.now) at result }
{
    next_token(reader_at(q, at))
}

// The first token past another, also one that touches it.
fn token_past(q: &[u8], t: Token) -> Token
    ensures { (result ≡ token_at q.now t.end) × SpansIf (length q.now) t.end result }
{
    next_token(moved_past(reader_at(q, t.start), t))
}

// The token after another.
pub fn token_after(q: &[u8], t: Token) -> Token
    ensures { (result ≡ token_after q.now t) × SpansIf (length q.now) t.end result }
{
    let n = token_past(q, t);
    if is_word_or_number(t.kind) & is_word_or_number(n.kind) & (n.start == t.end) {
        return Token::none(n.start);
    }
    n
}
