// The text of a datetime: 25 bytes, and where its fields stand.
ghost use Rattle.std.specs.Prelude.{◌≡◌, true};
ghost use Rattle.datetime.specs.Text.{shaped, date_in, time_in};

use crate::fields::{Date, Time};
use base::decimal::{all_decimal, decimal_at};

#[tactic(auto, unfolding(crate::specs::Text::shaped))]
pub fn is_shaped(s: &[u8]) -> bool
    ensures { result ≡ shaped s.now }
{
    s.len() == 25
        && s[14] == b'.'
        && all_decimal(s, 0, 14)
        && all_decimal(s, 15, 6)
        && all_decimal(s, 22, 3)
}

pub(crate) fn date_in(s: &[u8]) -> Date
    requires { shaped s.now ≡ true }
    ensures { result ≡ date_in s.now }
{
    Date {
        year: decimal_at(s, 0, 4),
        month: decimal_at(s, 4, 2),
        day: decimal_at(s, 6, 2),
    }
}

pub(crate) fn time_in(s: &[u8]) -> Time
    requires { shaped s.now ≡ true }
    ensures { result ≡ time_in s.now }
{
    Time {
        hour: decimal_at(s, 8, 2),
        minute: decimal_at(s, 10, 2),
        second: decimal_at(s, 12, 2),
        microsecond: decimal_at(s, 15, 6),
    }
}
