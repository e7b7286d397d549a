// Real literals: D and e, of any number of digits.
ghost use Rattle.std.specs.Prelude.{◌≡◌, ◌+◌, ◌-◌, ◌≤◌, length};
ghost use Rattle.base.specs.Digit.{size_under};
ghost use Rattle.literal.specs.RealLiteral.{digits_of, exponent_size, exponent_below, decoded_real, real_from, real_literal_of};

use crate::integer::is_negative;
use crate::{Literal, LiteralFault};
use base::bytes::byte_at;
use base::digit::read_value;
use numeral::{is_one_of, skip_sign};
use real::Real;
use real::literal::make_real;
use scan::{Class, run_end};

// The digits without the point, below 10^15.
const MOST_DIGITS: u64 = 999_999_999_999_999;

#[tactic(auto, using(crate::proofs::Laws::digits_whole, crate::proofs::Laws::digits_large))]
pub(crate) fn digits_of(q: &[u8], s: usize) -> Option<u64>
    requires { s ≤ length q.now }
    ensures { result ≡ size_under 999999999999999 (digits_of q.now s) }
{
    let i = run_end(Class::Digit(10), q, s);
    let p = i + 1;
    let f = run_end(Class::Digit(10), q, p);
    let v = read_value(10, 0, q, s, i - s, MOST_DIGITS)?;
    read_value(10, v, q, p, f - p, MOST_DIGITS)
}

// The exponent's digits; a number above the limit is out of range, however many digits stand after the point.
pub(crate) fn exponent_size(q: &[u8], f: usize) -> Option<u64>
    requires { f ≤ length q.now + 1 }
    ensures { result ≡ size_under 0x8000000000000016 (exponent_size q.now f) }
{
    if is_one_of(b'E', b'e', byte_at(q, f)) {
        let s = skip_sign(q, f + 1);
        let n = run_end(Class::Digit(10), q, s) - s;
        return read_value(10, 0, q, s, n, 0x8000_0000_0000_0016);
    }
    Some(0)
}

#[tactic(auto, unfolding(crate::specs::RealLiteral::exponent_below))]
pub(crate) fn is_below(q: &[u8], f: usize) -> bool
    requires { f ≤ length q.now + 1 }
    ensures { result ≡ exponent_below q.now f }
{
    is_one_of(b'E', b'e', byte_at(q, f)) & (byte_at(q, f + 1) == b'-')
}

// The real whose digits start after the sign, at a place, if it is in range.
#[tactic(auto, using(crate::proofs::Laws::real_made, crate::proofs::Laws::real_far, crate::proofs::Laws::real_long))]
pub(crate) fn real_from(q: &[u8], n: bool, s: usize) -> Option<Real>
    requires { s ≤ length q.now }
    ensures { decoded_real result ≡ real_from q.now n s }
{
    let p = run_end(Class::Digit(10), q, s) + 1;
    let f = run_end(Class::Digit(10), q, p);
    let d = digits_of(q, s)?;
    let e = exponent_size(q, f)?;
    make_real(n, d, is_below(q, f), e, (f - p) as u64)
}

// The real at a place, of any number of digits.
#[tactic(auto, unfolding(crate::specs::RealLiteral::real_literal_of))]
pub(crate) fn real_of(q: &[u8], start: usize) -> Result<Literal, LiteralFault>
    requires { start ≤ length q.now }
    ensures { result ≡ real_literal_of q.now start }
{
    let s = skip_sign(q, start);
    let x = real_from(q, is_negative(q, start), s).ok_or(LiteralFault::OutOfRange)?;
    Ok(Literal::Real(x))
}
