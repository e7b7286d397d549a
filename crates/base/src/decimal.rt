// Decimal digits by themselves: one range is tried for each byte, where `digit` tries three.
ghost use Rattle.std.specs.Prelude.{◌≡◌, true, ◌-◌, ◌≤◌, ltb, length};
ghost use Rattle.base.specs.Digit.{digit_of, all_digits, value_of};

#[tactic(auto, unfolding(crate::specs::Range::within), using(crate::proofs::DecimalDigits::is_decimal))]
fn is_decimal(b: u8) -> bool
    ensures { result ≡ ltb (digit_of b) 10 }
{
    b.is_ascii_digit()
}

// Whether the `n` bytes from `at` on are decimal digits. All of them are looked at: where no byte ends the loop early, the compiler tests several at once.
pub fn all_decimal(s: &[u8], at: usize, n: usize) -> bool
    requires { n ≤ length s.now - at }
    ensures { result ≡ all_digits 10 s.now at n }
{
    let mut all = true;
    for i in 0..n {
        all = all & is_decimal(s[at + i]);
    }
    all
}

// The number that so few decimal digits write that it always fits.
pub fn decimal_at(s: &[u8], at: usize, n: usize) -> u64
    requires { (n ≤ length s.now - at) × (n ≤ 15) × (all_digits 10 s.now at n ≡ true) }
    ensures { result ≡ value_of 10 0 s.now at n }
{
    let mut v: u64 = 0;
    for i in 0..n {
        v = v * 10 + u64::from(s[at + i] - b'0');
    }
    v
}
