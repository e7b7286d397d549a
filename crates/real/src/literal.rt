// A real literal's value, "by one multiplication or one division of exactly held real64 numbers" (01).
ghost use Rattle.std.specs.Prelude.{◌≡◌, ◌^◌, ◌<◌, ◌≤◌, Bool, pos, neg_ℤ};
ghost use Rattle.real.specs.Real.{signed, kept_with, real_with, real_of, exponent_of};

use crate::Real;
use crate::powers::power_of_ten;
use crate::scale::{Scale, scale_of};

fn add_sign(negative: bool, x: f64) -> f64
    ensures { result ≡ signed negative x }
{
    if negative { -x } else { x }
}

fn keep(negative: bool, digits: u64, exponent: i32, magnitude: f64) -> Real
    ensures { result ≡ kept_with negative digits exponent magnitude }
{
    let value = add_sign(negative, magnitude);
    Real {
        negative,
        digits,
        exponent,
        value,
    }
}

// Beside `divide`: one function with the operation passed to it would say no less.
fn multiply(negative: bool, digits: u64, k: usize) -> Real
    requires { (digits < 10 ^ 15) × (k < 23) }
    ensures { result ≡ real_with negative digits (pos k) }
{
    keep(negative, digits, k as i32, digits as f64 * power_of_ten(k))
}

fn divide(negative: bool, digits: u64, k: usize) -> Real
    requires { (digits < 10 ^ 15) × (0 < k) × (k < 23) }
    ensures { result ≡ real_with negative digits (neg_ℤ (pos k)) }
{
    keep(
        negative,
        digits,
        -(k as i32),
        digits as f64 / power_of_ten(k),
    )
}

// The literal with the sign `negative`, the digits `digits` read without the point, `after` of them behind it, and the exponent `size`, which is negative
// where `below` says so. A reader of long literals may clip: any `digits` from 10^15 on and any `size` above 22 + `after` are out of range alike.
pub fn make_real(negative: bool, digits: u64, below: bool, size: u64, after: u64) -> Option<Real>
    ensures { result ≡ real_of negative digits (exponent_of below size after) }
{
    if 1000000000000000 <= digits {
        return None;
    }
    let scale = scale_of(below, size, after)?;
    match scale {
        Scale::Up(k) => Some(multiply(negative, digits, k)),
        Scale::Down(k) => Some(divide(negative, digits, k)),
    }
}
