// Literals: what a token stands for.
#![tactic(auto)]

pub mod integer;
pub mod real_literal;
pub mod sort;

ghost use Rattle.std.specs.Prelude.{true, false, ◌≡◌, ◌-◌, ◌≤◌, length};
ghost use Rattle.literal.specs.Literal.{word_literal, hex_literal_of, number_literal, literal_of};

use crate::integer::integer_of;
use crate::real_literal::real_of;
use numeral::skip_sign;
use real::Real;
use token::{Form, Reserved, Token, TokenKind};

// 01: "A literal is one of: truth value, integer, real, text, octets or NULL". Text and octets are offsets into the query: the token's.
#[derive(Drop)]
pub enum Literal {
    Truth(bool),
    Integer(i128),
    Real(Real),
    Text { start: usize, end: usize },
    Octets { start: usize, end: usize },
    Null,
}

// Why a token stands for no literal.
#[derive(Clone, Copy, PartialEq, Eq)]
pub enum LiteralFault {
    OutOfRange,
    NoLiteral,
}

#[tactic(auto, unfolding(crate::specs::Literal::word_literal))]
fn word_literal(w: Reserved) -> Result<Literal, LiteralFault>
    ensures { result ≡ word_literal w }
{
    match w {
        Reserved::False => Ok(Literal::Truth(false)),
        Reserved::Null => Ok(Literal::Null),
        Reserved::True => Ok(Literal::Truth(true)),
        _ => Err(LiteralFault::NoLiteral),
    }
}

#[tactic(auto, unfolding(crate::specs::Literal::hex_literal_of))]
fn hex_literal_of(octets: bool, q: &[u8], start: usize, end: usize) -> Result<Literal, LiteralFault>
    requires { start ≤ length q.now }
    ensures { result ≡ hex_literal_of octets q.now start end }
{
    if octets & (skip_sign(q, start) == start) {
        return Ok(Literal::Octets { start, end });
    }
    integer_of(q, Form::Hex, start)
}

#[tactic(auto, unfolding(crate::specs::Literal::number_literal))]
fn number_literal(
    octets: bool,
    q: &[u8],
    f: Form,
    start: usize,
    end: usize,
) -> Result<Literal, LiteralFault>
    requires { start ≤ length q.now }
    ensures { result ≡ number_literal octets q.now f start end }
{
    match f {
        Form::Hex => hex_literal_of(octets, q, start, end),
        Form::Real => real_of(q, start),
        _ => integer_of(q, f, start),
    }
}

// The literal of a token; `octets` tells whether octets are asked for.
#[tactic(auto, unfolding(crate::specs::Literal::literal_of))]
pub fn literal_of(octets: bool, q: &[u8], t: Token) -> Result<Literal, LiteralFault>
    requires { t.start ≤ length q.now }
    ensures { result ≡ literal_of octets q.now t }
{
    let Token { kind, start, end } = t;
    match kind {
        TokenKind::Word(w) => word_literal(w),
        TokenKind::Number(f) => number_literal(octets, q, f, start, end),
        TokenKind::Text => Ok(Literal::Text { start, end }),
        _ => Err(LiteralFault::NoLiteral),
    }
}
