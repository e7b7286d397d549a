// What sort of literal a token is. It needs no value: the rows (21) are tried before the ranges (23).
ghost use Rattle.std.specs.Prelude.{true, false, ◌≡◌};
ghost use Rattle.literal.specs.Sort.{word_sort, form_sort, sort_of, unsigned_hex};

use numeral::skip_sign;
use token::{Form, Reserved, Token, TokenKind};

// Hex digits are an integer, and octets where they have no sign.
#[derive(Clone, Copy, PartialEq, Eq)]
pub enum Sort {
    Truth,
    Integer,
    Hex,
    Real,
    Text,
    Null,
}

#[tactic(auto, unfolding(crate::specs::Sort::word_sort))]
fn word_sort(w: Reserved) -> Option<Sort>
    ensures { result ≡ word_sort w }
{
    match w {
        Reserved::False => Some(Sort::Truth),
        Reserved::Null => Some(Sort::Null),
        Reserved::True => Some(Sort::Truth),
        _ => None,
    }
}

#[tactic(auto, unfolding(crate::specs::Sort::form_sort))]
fn form_sort(f: Form) -> Sort
    ensures { result ≡ form_sort f }
{
    match f {
        Form::Hex => Sort::Hex,
        Form::Real => Sort::Real,
        _ => Sort::Integer,
    }
}

// None: no literal.
#[tactic(auto, unfolding(crate::specs::Sort::sort_of))]
pub fn sort_of(k: TokenKind) -> Option<Sort>
    ensures { result ≡ sort_of k }
{
    match k {
        TokenKind::Word(w) => word_sort(w),
        TokenKind::Number(f) => Some(form_sort(f)),
        TokenKind::Text => Some(Sort::Text),
        _ => None,
    }
}

// 01: "Unsigned hex is octets against type 8; signed hex there is 21".
#[tactic(auto, unfolding(crate::specs::Sort::unsigned_hex))]
pub fn is_unsigned_hex(q: &[u8], t: Token) -> bool
    ensures { result ≡ unsigned_hex q.now t }
{
    match sort_of(t.kind) {
        Some(Sort::Hex) => skip_sign(q, t.start) == t.start,
        _ => false,
    }
}
