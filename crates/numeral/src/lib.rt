// The number rules of the grammar: where each one ends.
#![tactic(auto)]

ghost use Rattle.std.specs.Prelude.{◌≡◌, length};
ghost use Rattle.numeral.specs.Numeral.{one_of, moved, signed, unsigned_integer, decimal_literal, binary_body, binary_literal, hex_pairs, hex_body, hex_literal, exact_numeric, exponent_part, real_body, real_literal};
ghost use Rattle.scan.specs.Ends.{Ends};

use base::bytes::byte_at;
use scan::{Class, run_end};

pub fn is_one_of(a: u8, c: u8, b: u8) -> bool
    ensures { result ≡ one_of a c b }
{
    (b == a) | (b == c)
}

// The end that a rule reached after a start, and at if it did not move.
fn moved_to(at: usize, start: usize, end: usize) -> usize
    ensures { result ≡ moved at start end }
{
    if start < end { end } else { at }
}

// [sign]
#[tactic(auto, using(scan::proofs::Ends::reached, crate::proofs::Bounds::signed_ends), unfolding(crate::specs::Numeral::signed))]
pub fn skip_sign(q: &[u8], at: usize) -> usize
    ensures { (result ≡ signed q.now at) × Ends (length q.now) at result }
{
    if is_one_of(b'+', b'-', byte_at(q, at)) {
        return at + 1;
    }
    at
}

// unsigned-integer
#[tactic(auto, using(scan::proofs::Ends::reached, crate::proofs::Bounds::unsigned_ends), unfolding(crate::specs::Numeral::unsigned_integer))]
pub fn unsigned_integer(q: &[u8], at: usize) -> usize
    ensures { (result ≡ unsigned_integer q.now at) × Ends (length q.now) at result }
{
    run_end(Class::Digit(10), q, at)
}

// 1*(binary-digit) "B"
#[tactic(auto, using(scan::proofs::Ends::reached, crate::proofs::Bounds::binary_body_ends), unfolding(crate::specs::Numeral::binary_body))]
pub fn binary_body(q: &[u8], at: usize) -> usize
    ensures { (result ≡ binary_body q.now at) × Ends (length q.now) at result }
{
    let e = run_end(Class::Digit(2), q, at);
    if (at < e) && is_one_of(b'B', b'b', byte_at(q, e)) {
        return e + 1;
    }
    at
}

// *( hex-digit hex-digit )
#[tactic(auto, using(scan::proofs::Ends::reached, crate::proofs::Bounds::pairs_end), unfolding(crate::specs::Numeral::hex_pairs))]
pub fn hex_pairs(q: &[u8], at: usize) -> usize
    ensures { (result ≡ hex_pairs q.now at) × Ends (length q.now) at result }
{
    let n = run_end(Class::Digit(16), q, at) - at;
    at + n / 2 * 2
}

// "0X" 1*( hex-digit hex-digit )
#[tactic(auto, using(scan::proofs::Ends::reached, crate::proofs::Bounds::hex_body_ends), unfolding(crate::specs::Numeral::hex_body))]
pub fn hex_body(q: &[u8], at: usize) -> usize
    ensures { (result ≡ hex_body q.now at) × Ends (length q.now) at result }
{
    if (byte_at(q, at) == b'0') && is_one_of(b'X', b'x', byte_at(q, at + 1)) {
        let e = hex_pairs(q, at + 2);
        return moved_to(at, at + 2, e);
    }
    at
}

// exact-numeric
#[tactic(auto, using(scan::proofs::Ends::reached, crate::proofs::Bounds::exact_ends), unfolding(crate::specs::Numeral::exact_numeric))]
pub fn exact_numeric(q: &[u8], at: usize) -> usize
    ensures { (result ≡ exact_numeric q.now at) × Ends (length q.now) at result }
{
    let i = unsigned_integer(q, at);
    if byte_at(q, i) == b'.' {
        let f = unsigned_integer(q, i + 1);
        if at < i {
            return f;
        }
        return moved_to(at, i + 1, f);
    }
    at
}

// decimal-literal
#[tactic(auto, using(scan::proofs::Ends::reached, crate::proofs::Bounds::decimal_ends), unfolding(crate::specs::Numeral::decimal_literal))]
pub fn decimal_literal(q: &[u8], at: usize) -> usize
    ensures { (result ≡ decimal_literal q.now at) × Ends (length q.now) at result }
{
    let s = skip_sign(q, at);
    let e = unsigned_integer(q, s);
    moved_to(at, s, e)
}

// binary-literal
#[tactic(auto, using(scan::proofs::Ends::reached, crate::proofs::Bounds::binary_ends), unfolding(crate::specs::Numeral::binary_literal))]
pub fn binary_literal(q: &[u8], at: usize) -> usize
    ensures { (result ≡ binary_literal q.now at) × Ends (length q.now) at result }
{
    let s = skip_sign(q, at);
    let e = binary_body(q, s);
    moved_to(at, s, e)
}

// hex-literal
#[tactic(auto, using(scan::proofs::Ends::reached, crate::proofs::Bounds::hex_ends), unfolding(crate::specs::Numeral::hex_literal))]
pub fn hex_literal(q: &[u8], at: usize) -> usize
    ensures { (result ≡ hex_literal q.now at) × Ends (length q.now) at result }
{
    let s = skip_sign(q, at);
    let e = hex_body(q, s);
    moved_to(at, s, e)
}

// [ "E" decimal-literal ]
#[tactic(auto, using(scan::proofs::Ends::reached, crate::proofs::Bounds::exponent_ends), unfolding(crate::specs::Numeral::exponent_part))]
pub fn exponent_part(q: &[u8], at: usize) -> usize
    ensures { (result ≡ exponent_part q.now at) × Ends (length q.now) at result }
{
    if is_one_of(b'E', b'e', byte_at(q, at)) {
        let e = decimal_literal(q, at + 1);
        return moved_to(at, at + 1, e);
    }
    at
}

// exact-numeric [ "E" decimal-literal ]
#[tactic(auto, using(scan::proofs::Ends::reached, crate::proofs::Bounds::real_body_ends), unfolding(crate::specs::Numeral::real_body))]
pub fn real_body(q: &[u8], at: usize) -> usize
    ensures { (result ≡ real_body q.now at) × Ends (length q.now) at result }
{
    let e = exact_numeric(q, at);
    if at < e {
        return exponent_part(q, e);
    }
    at
}

// real-literal
#[tactic(auto, using(scan::proofs::Ends::reached, crate::proofs::Bounds::real_ends), unfolding(crate::specs::Numeral::real_literal))]
pub fn real_literal(q: &[u8], at: usize) -> usize
    ensures { (result ≡ real_literal q.now at) × Ends (length q.now) at result }
{
    let s = skip_sign(q, at);
    let e = real_body(q, s);
    moved_to(at, s, e)
}
