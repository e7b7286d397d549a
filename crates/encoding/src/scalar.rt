// Unicode scalar values.
ghost use Rattle.std.specs.Prelude.{◌≡◌};
ghost use Rattle.encoding.specs.Scalar.{is_scalar_value, scalar_of, scalar_at};

use base::bytes::piece;

#[tactic(auto, unfolding(base::specs::Range::within, crate::specs::Scalar::is_scalar_value))]
pub fn is_scalar_value(v: u32) -> bool
    ensures { result ≡ is_scalar_value v }
{
    matches!(v, 0..=0xd7ff | 0xe000..=0x10ffff)
}

// The scalar value of a sequence; the sequence's length says how its bits are distributed (Table 3-6).
pub fn scalar_of(q: &[u8]) -> u32
    ensures { result ≡ scalar_of q.now }
{
    match *q {
        [] => 0,
        [a] => u32::from(a),
        [a, b] => u32::from(a) % 32 * 64 + u32::from(b) % 64,
        [a, b, c] => (u32::from(a) % 16 * 64 + u32::from(b) % 64) * 64 + u32::from(c) % 64,
        [a, b, c, d, ..] => ((u32::from(a) % 8 * 64 + u32::from(b) % 64) * 64 + u32::from(c) % 64)
            * 64
            + u32::from(d) % 64,
    }
}

// The scalar value of the well-formed sequence at a place; 0 if none starts there.
pub fn scalar_at(s: &[u8], at: usize) -> u32
    ensures { result ≡ scalar_at s.now at }
{
    let n = crate::sequence::sequence_at(s, at);
    scalar_of(piece(s, at, n))
}
