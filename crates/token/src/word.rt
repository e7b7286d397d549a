// Reserved words and names.
ghost use Rattle.std.specs.Prelude.{◌≡◌, ◌≤◌, length};
ghost use Rattle.token.specs.Token.{word_kind, word_token, Spans};

use crate::{Reserved, Token, TokenKind};
use base::bytes::byte_at;
use record::name::{is_letter, same_name};
use scan::{Class, run_end};

// Only a reserved word of the same length can be spelled.
pub fn word_kind(w: &[u8]) -> TokenKind
    ensures { result ≡ word_kind w.now }
{
    match w.len() {
        2 if same_name(w, b"OR") => TokenKind::Word(Reserved::Or),
        3 if same_name(w, b"AND") => TokenKind::Word(Reserved::And),
        3 if same_name(w, b"ANY") => TokenKind::Word(Reserved::Any),
        3 if same_name(w, b"NOT") => TokenKind::Word(Reserved::Not),
        4 if same_name(w, b"LIKE") => TokenKind::Word(Reserved::Like),
        4 if same_name(w, b"NULL") => TokenKind::Word(Reserved::Null),
        4 if same_name(w, b"TRUE") => TokenKind::Word(Reserved::True),
        5 if same_name(w, b"EVERY") => TokenKind::Word(Reserved::Every),
        5 if same_name(w, b"FALSE") => TokenKind::Word(Reserved::False),
        _ => TokenKind::Name,
    }
}

pub(crate) fn word_token(q: &[u8], s: usize) -> Token
    requires { s ≤ length q.now }
    ensures { (result ≡ word_token q.now s) × Spans (length q.now) s result }
{
    if is_letter(byte_at(q, s)) {
        let e = run_end(Class::Word, q, s);
        let kind = word_kind(&q[s..e]);
        return Token {
            kind,
            start: s,
            end: e,
        };
    }
    Token::none(s)
}
