// The longest of several matches.
ghost use Rattle.std.specs.Prelude.{◌≡◌, ◌<◌, ◌||◌, length};
ghost use Rattle.scan.specs.Class.{in_class};
ghost use Rattle.scan.specs.declared.Class.TheVariants as Class;
ghost use Rattle.numeral.specs.Numeral.{one_of, real_literal};
ghost use Rattle.token.specs.Token.{fitted, longer, symbol_of, longest_at, Spans};

use crate::literals::{number_token, text_token};
use crate::symbol::{symbol_of, symbol_token};
use crate::word::word_token;
use crate::{Form, Punctuation, Token, TokenKind};
use numeral::is_one_of;
use record::name::is_letter;

#[tactic(auto, unfolding(crate::specs::Token::fitted))]
pub(crate) fn fit(k: TokenKind, s: usize, e: usize) -> Token
    ensures { result ≡ fitted k s e }
{
    if s < e {
        return Token {
            kind: k,
            start: s,
            end: e,
        };
    }
    Token::none(s)
}

#[tactic(auto, unfolding(crate::specs::Token::longer))]
pub(crate) fn longer_of(a: Token, b: Token) -> Token
    ensures { result ≡ longer a b }
{
    if a.end < b.end { b } else { a }
}

// A point begins a real number, or stands for itself.
fn point_token(q: &[u8], s: usize) -> Token
    requires { s < length q.now }
    ensures { (result ≡ longer (fitted (TokenKind.Number Form.Real) s (real_literal q.now s)) (symbol_of (TokenKind.Symbol Punctuation.Dot) s 1)) × Spans (length q.now) s result }
{
    let r = fit(
        TokenKind::Number(Form::Real),
        s,
        numeral::real_literal(q, s),
    );
    longer_of(r, symbol_of(TokenKind::Symbol(Punctuation::Dot), s, 1))
}

// A digit or a sign. A point may begin a number too, or stand alone: `point_token` tells.
#[tactic(auto, using(crate::proofs::FirstByte::number_begins), unfolding(base::specs::Range::within))]
fn begins_number(b: u8) -> bool
    ensures { result ≡ (in_class (Class.Digit 10) b || one_of 43 45 b) }
{
    b.is_ascii_digit() | is_one_of(b'+', b'-', b)
}

// The first byte tells which kind can stand there.
pub(crate) fn longest_at(q: &[u8], s: usize) -> Token
    requires { s < length q.now }
    ensures { (result ≡ longest_at q.now s) × Spans (length q.now) s result }
{
    let b = q[s];
    if is_letter(b) {
        return word_token(q, s);
    }
    if begins_number(b) {
        return number_token(q, s);
    }
    if b == b'\'' {
        return text_token(q, s);
    }
    if b == b'.' {
        return point_token(q, s);
    }
    symbol_token(q, s)
}
