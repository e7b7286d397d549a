// Unknown digits: where they start, and the lowest and the highest text that they leave open.
ghost use Rattle.std.specs.Prelude.{◌≡◌, true, ◌≤◌, eqb, length};
ghost use Rattle.std.proofs.lemmas.List.Edits.{sets};
ghost use Rattle.base.specs.Pick.{pick};
ghost use Rattle.text_writer.specs.Decimal.{decimal};
ghost use Rattle.datetime.specs.Calendar.{leap_year, days_in_month};
ghost use Rattle.datetime.specs.Text.{shaped, date_in};
ghost use Rattle.datetime.specs.Unknown.{known, filled, tailed, may_start, lowest_text, highest_text};
ghost use Rattle.datetime.specs.Datetime.{says_to};

use crate::calendar::{days_in_month, is_leap_year};
use crate::text::date_in;
use base::bytes::{byte_at, piece};
use text_writer::buffer::write_text;
use text_writer::decimal::write_decimal;

pub(crate) fn known_in(s: &[u8]) -> usize
    ensures { (result ≡ known s.now) × (result ≤ 21) }
{
    for i in 0..21 {
        if byte_at(s, i) == b'*' {
            return i;
        }
    }
    21
}

pub(crate) fn is_tailed(known: usize, s: &[u8]) -> bool
    requires { (length s.now ≡ 25) × (known ≤ 21) }
    ensures { result ≡ tailed known s.now }
{
    let stars: &[u8] = b"**************.******";
    stars[known..] == s[known..21]
}

pub(crate) fn may_start(interval: bool, known: usize) -> bool
    ensures { result ≡ may_start interval known }
{
    match known {
        0 | 8 | 10 | 12 => true,
        4 | 6 => !interval,
        _ => 15 <= known,
    }
}

fn fill(known: usize, digits: &[u8; 21], s: &[u8], out: &mut [u8; 25])
    requires { (known ≤ 21) × (length s.now ≡ 25) }
    ensures { out.new ≡ filled known digits.now s.now }
{
    write_text(out, 0, s);
    write_text(out, known, piece(digits, known, 21));
}

pub(crate) fn fill_lowest(known: usize, s: &[u8], out: &mut [u8; 25])
    requires { (known ≤ 21) × (length s.now ≡ 25) }
    ensures { out.new ≡ lowest_text known s.now }
{
    if s[21] == b':' {
        fill(known, b"00000000000000.000000", s, out);
    } else {
        fill(known, b"00000101000000.000000", s, out);
    }
}

// The month is known, and the day is not.
fn set_last_day(out: &mut [u8])
    requires { (shaped out.old ≡ true) × (1 ≤ (date_in out.old).month) × ((date_in out.old).month ≤ 12) }
    ensures { out.new ≡ sets out.old 6 (decimal (days_in_month (leap_year (date_in out.old).year) (date_in out.old).month)) }
{
    let d = date_in(out);
    let last = days_in_month(is_leap_year(d.year), d.month);
    write_decimal(out, 6, last as usize);
}

pub(crate) fn fill_highest(known: usize, s: &[u8], out: &mut [u8; 25])
    requires { (says_to known s.now ≡ true) × (known ≤ 21) }
    ensures { out.new ≡ highest_text known s.now }
{
    if s[21] == b':' {
        fill(known, b"99999999235959.999999", s, out);
    } else {
        fill(known, b"99991231235959.999999", s, out);
        if known == 6 {
            set_last_day(out);
        }
    }
}
