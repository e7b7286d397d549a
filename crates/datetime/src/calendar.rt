// The Gregorian calendar from the year 0000 on.
ghost use Rattle.std.specs.Prelude.{◌≡◌, false, ◌≤◌, ◌<◌};
ghost use Rattle.datetime.specs.Calendar.{leap_year, days_before_year, days_before_month, days_in_month};

use crate::days_before::days_before_in_cycle;

pub fn is_leap_year(y: u64) -> bool
    ensures { result ≡ leap_year y }
{
    y % 400 == 0 || (y % 100 != 0 && y % 4 == 0)
}

// 400 years have 146097 days.
pub(crate) fn days_before_year(y: u64) -> u64
    requires { y < 10000 }
    ensures { (result ≡ days_before_year y) × (result < 3660000) }
{
    let k = (y % 400) as usize;
    y / 400 * 146097 + days_before_in_cycle(k)
}

#[tactic(auto, unfolding(crate::specs::Calendar::days_before_month))]
fn days_before_month_of_common_year(m: u64) -> u64
    requires { (1 ≤ m) × (m ≤ 12) }
    ensures { (result ≡ days_before_month false m) × (result < 335) }
{
    match m {
        1 => 0,
        2 => 31,
        3 => 59,
        4 => 90,
        5 => 120,
        6 => 151,
        7 => 181,
        8 => 212,
        9 => 243,
        10 => 273,
        11 => 304,
        _ => 334,
    }
}

// Months are counted from 1.
pub(crate) fn days_before_month(leap: bool, m: u64) -> u64
    requires { (1 ≤ m) × (m ≤ 12) }
    ensures { (result ≡ days_before_month leap m) × (result < 400) }
{
    let days = days_before_month_of_common_year(m);
    if leap & (2 < m) { days + 1 } else { days }
}

fn days_in_february(leap: bool) -> u64
    ensures { result ≡ days_in_month leap 2 }
{
    if leap { 29 } else { 28 }
}

pub(crate) fn days_in_month(leap: bool, m: u64) -> u64
    requires { (1 ≤ m) × (m ≤ 12) }
    ensures { result ≡ days_in_month leap m }
{
    match m {
        2 => days_in_february(leap),
        4 | 6 | 9 | 11 => 30,
        _ => 31,
    }
}
