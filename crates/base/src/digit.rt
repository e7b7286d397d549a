// Digits of bases up to 16, and the numbers they write.
ghost use Rattle.std.specs.Prelude.{◌≡◌, ◌-◌, ◌≤◌, ◌<◌, length};
ghost use Rattle.base.specs.Digit.{digit_of, value_of, size_under};

// Tests one after the other: a match on the three ranges compiles to half as many instructions again.
#[tactic(auto, unfolding(crate::specs::Digit::digit_of, crate::specs::Range::within))]
pub fn digit_of(b: u8) -> u64
    ensures { (result ≡ digit_of b) × (result ≤ 16) }
{
    if b.is_ascii_digit() {
        return u64::from(b - b'0');
    }
    if matches!(b, b'A'..=b'F') {
        return u64::from(b - b'A' + 10);
    }
    if matches!(b, b'a'..=b'f') {
        return u64::from(b - b'a' + 10);
    }
    16
}

// The number `first` with the `n` digits from `at` on written after it, if it is at most `limit`: any number of digits, without overflow.
pub fn read_value(base: u64, first: u64, s: &[u8], at: usize, n: usize, limit: u64) -> Option<u64>
    requires { (n ≤ length s.now - at) × (0 < base) × (first ≤ limit) × (16 ≤ limit) }
    ensures { result ≡ size_under limit (value_of base first s.now at n) }
{
    let mut v = first;
    for i in 0..n {
        let d = digit_of(s[at + i]);
        if (limit - d) / base < v {
            return None;
        }
        v = v * base + d;
    }
    Some(v)
}
