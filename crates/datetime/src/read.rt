// What a datetime's text says, and whether it says anything. A text without unknown digits is read first, and pays nothing for those with.
ghost use Rattle.std.specs.Prelude.{◌≡◌, true, eqb};
ghost use Rattle.datetime.specs.Unknown.{known};
ghost use Rattle.datetime.specs.Datetime.{says_datetime, span_to, sorted, datetime_of};

use crate::exact::{is_exact, microseconds_in};
use crate::unknown::{fill_highest, fill_lowest, is_tailed, known_in, may_start};
use crate::{Datetime, Span};

fn is_starred(s: &[u8]) -> bool
    ensures { result ≡ says_datetime s.now }
{
    if s.len() != 25 {
        return false;
    }
    let known = known_in(s);
    if !is_tailed(known, s) || !may_start(s[21] == b':', known) {
        return false;
    }
    let mut text = [0u8; 25];
    fill_lowest(known, s, &mut text);
    is_exact(&text)
}

// No moment is worked out: conformance needs none.
pub fn is_datetime(s: &[u8]) -> bool
    ensures { result ≡ says_datetime s.now }
{
    if is_exact(s) {
        return true;
    }
    is_starred(s)
}

fn span_in(s: &[u8]) -> Span
    requires { says_datetime s.now ≡ true }
    ensures { result ≡ span_to (known s.now) s.now }
{
    let known = known_in(s);
    let mut text = [0u8; 25];
    fill_lowest(known, s, &mut text);
    let lowest = microseconds_in(&text);
    fill_highest(known, s, &mut text);
    let highest = microseconds_in(&text);
    Span { lowest, highest }
}

fn sort_by_sign(sign: u8, span: Span) -> Datetime
    ensures { result ≡ sorted (eqb sign 58) span }
{
    if sign == b':' {
        Datetime::Interval(span)
    } else {
        Datetime::Timestamp(span)
    }
}

pub fn read_datetime(s: &[u8]) -> Datetime
    ensures { result ≡ datetime_of s.now }
{
    if is_exact(s) {
        let moment = microseconds_in(s);
        return sort_by_sign(
            s[21],
            Span {
                lowest: moment,
                highest: moment,
            },
        );
    }
    if !is_starred(s) {
        return Datetime::Malformed;
    }
    let span = span_in(s);
    sort_by_sign(s[21], span)
}
