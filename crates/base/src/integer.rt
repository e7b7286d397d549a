// Whole numbers of 1 to 8 bytes, least byte first, unsigned and in two's complement.
ghost use Rattle.std.specs.Prelude.{◌≡◌, ℕ, ◌+◌, ◌^◌, ◌≤◌, ◌<◌, length, take};
ghost use Rattle.std.specs.Int.Signed.{lt_z};
ghost use Rattle.base.specs.LittleEndian.{unsigned, twos_complement};
ghost use Rattle.base.specs.Order.{order_of_whole};

use crate::bytes;
use crate::order::Order;

// Eight bytes, the width of most: a sum of this form is one load.
fn word_of(s: &[u8]) -> u64
    requires { length s.now ≡ 8 }
    ensures { (result ≡ unsigned s.now) × (result < 256 ^ 8) }
{
    u64::from(s[0])
        + u64::from(s[1]) * 0x100
        + u64::from(s[2]) * 0x1_0000
        + u64::from(s[3]) * 0x100_0000
        + u64::from(s[4]) * 0x1_0000_0000
        + u64::from(s[5]) * 0x100_0000_0000
        + u64::from(s[6]) * 0x1_0000_0000_0000
        + u64::from(s[7]) * 0x100_0000_0000_0000
}

// One function for every width: the bytes are taken from the last one down.
fn unsigned_of(s: &[u8]) -> u64
    requires { length s.now ≤ 8 }
    ensures { (result ≡ unsigned s.now) × (result < 256 ^ length s.now) }
{
    if s.len() == 8 {
        return word_of(s);
    }
    let mut v: u64 = 0;
    for i in (0..s.len()).rev() {
        v = v * 256 + u64::from(s[i]);
    }
    v
}

// The greatest number of `n` bytes.
fn all_ones(n: usize) -> u64
    requires { n ≤ 8 }
    ensures { result + 1 ≡ 256 ^ n }
{
    if n == 8 {
        return 0xffff_ffff_ffff_ffff;
    }
    let mut v: u64 = 0;
    for i in 0..n {
        v = v * 256 + 255;
    }
    v
}

// The number in a body of at most 8 bytes; of a longer one, in the first 8.
pub fn unsigned_in(s: &[u8]) -> u64
    ensures { result ≡ unsigned (take 8 s.now) }
{
    unsigned_of(bytes::piece(s, 0, 8))
}

// The same in two's complement, as a type that also holds every unsigned number of 8 bytes.
pub fn signed_in(s: &[u8]) -> i128
    ensures { result ≡ twos_complement (take 8 s.now) }
{
    let body = bytes::piece(s, 0, 8);
    let u = unsigned_of(body);
    let ones = all_ones(body.len());
    if u <= ones / 2 {
        return i128::from(u);
    }
    i128::from(u) - i128::from(ones) - 1
}

#[tactic(auto, using(crate::proofs::Orders::less))]
pub fn is_less(a: i128, b: i128) -> bool
    ensures { result ≡ lt_z a b }
{
    a < b
}

#[tactic(auto, unfolding(crate::specs::Order::order_of_whole))]
pub fn order_of_whole(a: i128, b: i128) -> Order
    ensures { result ≡ order_of_whole a b }
{
    if is_less(a, b) {
        return Order::Before;
    }
    if is_less(b, a) {
        return Order::After;
    }
    Order::Same
}
