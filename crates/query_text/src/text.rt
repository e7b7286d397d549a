// A query's text: its length, its encoding, its grammar and limits.
ghost use Rattle.std.specs.Prelude.{◌≡◌};
ghost use Rattle.query_text.specs.Text.{number_of, text_verdict};

use crate::query::read_query;
use encoding::text::check_utf8;
use syntax::fault::{Cause, Fault};

// 01's number of a refusal.
pub fn number_of(cause: Cause) -> usize
    ensures { result ≡ number_of cause }
{
    match cause {
        Cause::Length => 1,
        Cause::Encoding => 10,
        Cause::Grammar => 11,
        Cause::Limit => 12,
    }
}

#[tactic(auto, unfolding(crate::specs::Text::text_verdict, crate::specs::Text::encoded_verdict))]
pub fn check_text(q: &[u8]) -> Result<(), Fault>
    ensures { result ≡ text_verdict q.now }
{
    if 4096 < q.len() {
        return Err(Fault {
            cause: Cause::Length,
            place: 0,
        });
    }
    check_utf8(q).map_err(|place| Fault {
        cause: Cause::Encoding,
        place,
    })?;
    read_query(q)
}
