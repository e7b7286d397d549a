// Bytes by their offset, total: what stands past the end reads as nothing.
ghost use Rattle.std.specs.Prelude.{◌≡◌, ℕ, ◌<◌};
ghost use Rattle.base.specs.Part.{byte_at, part};
ghost use Rattle.base.specs.Range.{within};

pub fn byte_at(s: &[u8], at: usize) -> u8
    ensures { result ≡ byte_at s.now at }
{
    if at < s.len() {
        return s[at];
    }
    0
}

// The part of a slice, as far as there is one.
pub fn piece(s: &[u8], start: usize, len: usize) -> &[u8]
    ensures { result.now ≡ part s.now start len }
{
    if s.len() < start {
        return &s[..0];
    }
    if s.len() - start < len {
        return &s[start..];
    }
    &s[start..start + len]
}

// Whether `b` is from `low` to `high`.
#[tactic(auto, unfolding(crate::specs::Range::within))]
pub fn in_range(low: u8, high: u8, b: u8) -> bool
    ensures { result ≡ within low high b }
{
    (low <= b) & (b <= high)
}

// The byte as a number, with its bound.
pub fn widen(b: u8) -> u64
    ensures { (result ≡ b) × (result < 256) }
{
    b as u64
}
