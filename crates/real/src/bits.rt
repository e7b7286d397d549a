// Reals from their bytes. Every pattern is a value; `from_bits` is undefined at a NaN's, so a NaN is parted off and made by a division.
ghost use Rattle.std.specs.Prelude.{◌≡◌, ◌^◌, ◌<◌, take};
ghost use Rattle.std.specs.Float.Ieee as Ieee;
ghost use Rattle.std.specs.Float.{binary32, binary64};
ghost use Rattle.base.specs.LittleEndian.{unsigned};
ghost use Rattle.real.specs.Value.{real32_of, real64_of};

use base::bytes::piece;
use base::integer::unsigned_in;

// One for each format: a generic function would take its limits, its `from_bits` and its format one by one.
fn f64_of(n: u64) -> f64
    ensures { result ≡ Ieee.of_bits binary64 n }
{
    if 0x7ff0_0000_0000_0000 < n % 0x8000_0000_0000_0000 {
        0.0 / 0.0
    } else {
        f64::from_bits(n)
    }
}

fn f32_of(n: u32) -> f32
    ensures { result ≡ Ieee.of_bits binary32 n }
{
    if 0x7f80_0000 < n % 0x8000_0000 {
        0.0 / 0.0
    } else {
        f32::from_bits(n)
    }
}

// The real64 in the first 8 bytes.
pub fn real64_in(s: &[u8]) -> f64
    ensures { result ≡ real64_of s.now }
{
    f64_of(unsigned_in(s))
}

fn first_four(s: &[u8]) -> u64
    ensures { (result ≡ unsigned (take 4 s.now)) × (result < 2 ^ 32) }
{
    unsigned_in(piece(s, 0, 4))
}

// The real32 in the first 4 bytes, widened exactly.
pub fn real32_in(s: &[u8]) -> f64
    ensures { result ≡ real32_of s.now }
{
    let n = first_four(s);
    std::num::f32_to_f64_with_nan(f32_of(n as u32))
}
