// The datetime that the characters of a string literal say.
ghost use Rattle.std.specs.Prelude.{◌≡◌, length};
ghost use Rattle.string_literal.specs.Text.{text_at, characters_of};
ghost use Rattle.datetime.specs.Datetime.{datetime_of};
ghost use Rattle.value_literal.specs.DatetimeText.{Copied};

use base::bytes::piece;
use datetime::Datetime;
use datetime::read::read_datetime;
use string_literal::{InString, char_in_string};

// Copies the characters of the string literal from a place on, if they may be a datetime's.
fn copy_characters(q: &[u8], at: usize, out: &mut [u8]) -> Option<usize>
    requires { length out.old ≡ 25 }
    ensures { Copied (characters_of (text_at q.now at)) out.new result }
{
    let mut i = at;
    let mut n = 0;
    while let InString::Character(v, next) = char_in_string(q, i) {
        if out.len() <= n {
            return None;
        }
        if 127 < v {
            return None;
        }
        out[n] = v as u8;
        n += 1;
        i = next;
    }
    Some(n)
}

#[tactic(auto, using(crate::proofs::Ascii::copied_read, crate::proofs::Ascii::copied_none))]
pub(crate) fn datetime_in(q: &[u8], at: usize) -> Datetime
    ensures { result ≡ datetime_of (characters_of (text_at q.now at)) }
{
    let mut text = [0u8; 25];
    let Some(n) = copy_characters(q, at, &mut text) else {
        return Datetime::Malformed;
    };
    read_datetime(piece(&text, 0, n))
}
