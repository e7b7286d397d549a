// A text without unknown digits: whether it is a datetime, and which moment or length it says.
ghost use Rattle.std.specs.Prelude.{◌≡◌, true, ◌||◌};
ghost use Rattle.datetime.specs.Exact.{is_sign, is_timestamp, is_interval, microseconds};

use crate::fields::{is_date, is_time};
use crate::moment::{add_time, days_before, less_offset};
use crate::text::{date_in, is_shaped, time_in};
use base::decimal::decimal_at;

fn is_sign(sign: u8) -> bool
    ensures { result ≡ is_sign sign }
{
    matches!(sign, b'+' | b'-')
}

pub(crate) fn is_exact(s: &[u8]) -> bool
    ensures { result ≡ (is_timestamp s.now || is_interval s.now) }
{
    if !is_shaped(s) || !is_time(time_in(s)) {
        return false;
    }
    let sign = s[21];
    if sign == b':' {
        return decimal_at(s, 22, 3) == 0;
    }
    is_sign(sign) & is_date(date_in(s))
}

pub(crate) fn microseconds_in(s: &[u8]) -> i64
    requires { (is_timestamp s.now || is_interval s.now) ≡ true }
    ensures { result ≡ microseconds s.now }
{
    let t = time_in(s);
    let sign = s[21];
    if sign == b':' {
        return add_time(decimal_at(s, 0, 8), t) as i64;
    }
    let local = add_time(days_before(date_in(s)), t);
    less_offset(local, sign, decimal_at(s, 22, 3))
}
