// Moments, in microseconds from the start of the year 0000.
ghost use Rattle.std.specs.Prelude.{◌≡◌, true, ◌<◌};
ghost use Rattle.datetime.specs.Fields.{is_date, is_time};
ghost use Rattle.datetime.specs.Moment.{days_before, microseconds_of, elapsed, offset_of, moment_at};

use crate::calendar::{days_before_month, days_before_year, is_leap_year};
use crate::fields::{Date, Time};

pub(crate) fn days_before(d: Date) -> u64
    requires { (is_date d ≡ true) × (d.year < 10000) }
    ensures { (result ≡ days_before d) × (result < 3700000) }
{
    let y = d.year;
    let a = days_before_year(y);
    let b = days_before_month(is_leap_year(y), d.month);
    a + b + (d.day - 1)
}

pub(crate) fn microseconds_of(t: Time) -> u64
    requires { (is_time t ≡ true) × (t.microsecond < 1000000) }
    ensures { (result ≡ microseconds_of t) × (result < 86400000000) }
{
    ((t.hour * 60 + t.minute) * 60 + t.second) * 1000000 + t.microsecond
}

// The microseconds of whole days and a time.
pub(crate) fn add_time(days: u64, t: Time) -> u64
    requires { (days < 100000000) × (is_time t ≡ true) × (t.microsecond < 1000000) }
    ensures { (result ≡ elapsed days t) × (result < 8640000000000000000) }
{
    days * 86400000000 + microseconds_of(t)
}

// A moment of the year 0000 at a positive offset lies below zero.
pub(crate) fn less_offset(local: u64, sign: u8, minutes: u64) -> i64
    requires { (local < 9000000000000000000) × (minutes < 1000) }
    ensures { result ≡ moment_at local (offset_of sign minutes) }
{
    let shift = minutes * 60000000;
    if sign == b'-' {
        (local + shift) as i64
    } else {
        local as i64 - shift as i64
    }
}
