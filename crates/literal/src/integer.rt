// Integer literals, of any number of digits.
ghost use Rattle.std.specs.Prelude.{◌≡◌, ◌+◌, ◌-◌, ◌≤◌, ◌<◌, length};
ghost use Rattle.literal.specs.Integer.{negative, base_of, lead_of, digit_count, with_sign, integer_of};

use crate::{Literal, LiteralFault};
use base::bytes::byte_at;
use base::digit::read_value;
use numeral::skip_sign;
use scan::{Class, run_end};
use token::Form;

pub(crate) fn is_negative(q: &[u8], start: usize) -> bool
    ensures { result ≡ negative q.now start }
{
    byte_at(q, start) == b'-'
}

#[tactic(auto, unfolding(crate::specs::Integer::base_of))]
pub(crate) fn base_of(f: Form) -> u64
    ensures { (result ≡ base_of f) × (0 < result) }
{
    match f {
        Form::Binary => 2,
        Form::Hex => 16,
        _ => 10,
    }
}

#[tactic(auto, unfolding(crate::specs::Integer::lead_of))]
pub(crate) fn lead_of(f: Form) -> usize
    ensures { (result ≡ lead_of f) × (result ≤ 2) }
{
    match f {
        Form::Hex => 2,
        _ => 0,
    }
}

#[tactic(auto, unfolding(crate::specs::Integer::digit_count))]
pub(crate) fn digit_count(f: Form, q: &[u8], p: usize) -> usize
    ensures { (result ≡ digit_count f q.now p) × (result ≤ length q.now - p) }
{
    match f {
        Form::Decimal => run_end(Class::Digit(10), q, p) - p,
        Form::Binary => run_end(Class::Digit(2), q, p) - p,
        Form::Hex => (run_end(Class::Digit(16), q, p) - p) / 2 * 2,
        Form::Real => 0,
    }
}

#[tactic(auto, unfolding(crate::specs::Integer::with_sign))]
pub(crate) fn with_sign(n: bool, m: u64) -> i128
    ensures { result ≡ with_sign n m }
{
    if n { -i128::from(m) } else { i128::from(m) }
}

// The integer at a place, of any number of digits.
#[tactic(auto, using(crate::proofs::Laws::integer_read, crate::proofs::Laws::integer_large))]
pub fn integer_of(q: &[u8], f: Form, start: usize) -> Result<Literal, LiteralFault>
    requires { start ≤ length q.now }
    ensures { result ≡ integer_of q.now f start }
{
    let p = skip_sign(q, start) + lead_of(f);
    let n = digit_count(f, q, p);
    let m = read_value(base_of(f), 0, q, p, n, u64::MAX).ok_or(LiteralFault::OutOfRange)?;
    Ok(Literal::Integer(with_sign(is_negative(q, start), m)))
}
