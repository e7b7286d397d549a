// Numbers and strings.
ghost use Rattle.std.specs.Prelude.{◌≡◌, ◌≤◌, length};
ghost use Rattle.numeral.specs.Numeral.{binary_literal, hex_literal, real_literal};
ghost use Rattle.token.specs.Token.{fitted, longer, number_token, text_token, Spans};

use crate::longest::{fit, longer_of};
use crate::{Form, Token, TokenKind};
use base::bytes::byte_at;
use numeral::is_one_of;

// binary-literal, hex-literal, real-literal
fn other_form(q: &[u8], s: usize) -> Token
    requires { s ≤ length q.now }
    ensures { (result ≡ longer (fitted (TokenKind.Number Form.Binary) s (binary_literal q.now s)) (longer (fitted (TokenKind.Number Form.Hex) s (hex_literal q.now s)) (fitted (TokenKind.Number Form.Real) s (real_literal q.now s)))) × Spans (length q.now) s result }
{
    let b = fit(
        TokenKind::Number(Form::Binary),
        s,
        numeral::binary_literal(q, s),
    );
    let h = fit(TokenKind::Number(Form::Hex), s, numeral::hex_literal(q, s));
    let r = fit(
        TokenKind::Number(Form::Real),
        s,
        numeral::real_literal(q, s),
    );
    longer_of(b, longer_of(h, r))
}

// Digits are another form than the decimal one only where "B", "X" or "." follows them.
pub(crate) fn number_token(q: &[u8], s: usize) -> Token
    requires { s ≤ length q.now }
    ensures { (result ≡ number_token q.now s) × Spans (length q.now) s result }
{
    let e = numeral::decimal_literal(q, s);
    let next = byte_at(q, e);
    if (s < e) & !(is_one_of(b'B', b'b', next) | (is_one_of(b'X', b'x', next) | (next == b'.'))) {
        return Token {
            kind: TokenKind::Number(Form::Decimal),
            start: s,
            end: e,
        };
    }
    let d = fit(TokenKind::Number(Form::Decimal), s, e);
    longer_of(d, other_form(q, s))
}

pub(crate) fn text_token(q: &[u8], s: usize) -> Token
    requires { s ≤ length q.now }
    ensures { (result ≡ text_token q.now s) × Spans (length q.now) s result }
{
    fit(TokenKind::Text, s, string_literal::string_literal(q, s))
}
