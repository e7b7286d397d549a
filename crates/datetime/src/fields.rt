// The fields of a datetime's text, and which dates and times there are.
ghost use Rattle.std.specs.Prelude.{◌≡◌};
ghost use Rattle.datetime.specs.Fields.{is_date, is_time};

use crate::calendar::{days_in_month, is_leap_year};

#[derive(Clone, Copy)]
pub struct Date {
    pub year: u64,
    pub month: u64,
    pub day: u64,
}

#[derive(Clone, Copy)]
pub struct Time {
    pub hour: u64,
    pub minute: u64,
    pub second: u64,
    pub microsecond: u64,
}

pub fn is_date(d: Date) -> bool
    ensures { result ≡ is_date d }
{
    let m = d.month;
    1 <= m && m <= 12 && 1 <= d.day && d.day <= days_in_month(is_leap_year(d.year), m)
}

pub fn is_time(t: Time) -> bool
    ensures { result ≡ is_time t }
{
    t.hour <= 23 && t.minute <= 59 && t.second <= 59
}
