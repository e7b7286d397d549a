// The power of ten of a real literal: 10^e, from the exponent as written and the number of digits after the point.
ghost use Rattle.std.specs.Prelude.{◌≡◌, pos, neg_ℤ};
ghost use Rattle.real.specs.Real.{exponent_of};
ghost use Rattle.real.specs.Scale.{scale_of};

// e itself from 0 to 22; e below 0, down to -22, without its sign. Any other e has no scale.
#[derive(Clone, Copy)]
pub enum Scale {
    Up(usize),
    Down(usize),
}

#[tactic(auto, unfolding(crate::specs::Scale::scale_of))]
fn scale_up(n: u64) -> Option<Scale>
    ensures { result ≡ scale_of (pos n) }
{
    if 22 < n {
        return None;
    }
    Some(Scale::Up(n as usize))
}

fn scale_down(k: u64) -> Option<Scale>
    ensures { result ≡ scale_of (neg_ℤ (pos k)) }
{
    if k == 0 {
        return Some(Scale::Up(0));
    }
    if 22 < k {
        return None;
    }
    Some(Scale::Down(k as usize))
}

// No sum is made of numbers that are out of range by themselves, so none overflows.
pub fn scale_of(negative: bool, size: u64, after: u64) -> Option<Scale>
    ensures { result ≡ scale_of (exponent_of negative size after) }
{
    if negative {
        if 22 < size || 22 < after {
            return None;
        }
        return scale_down(size + after);
    }
    if size < after {
        return scale_down(after - size);
    }
    scale_up(size - after)
}
