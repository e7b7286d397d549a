// The records of a slice, one after the other.
ghost use Rattle.std.specs.Prelude.{◌≡◌};
ghost use Rattle.base.specs.Part.{part};
ghost use Rattle.record.specs.Record.{records};
ghost use Rattle.record.specs.Walked.{left};

use crate::read::{RecordAt, record_at};

// A whole record: its place, its kind, and its body's start and length.
#[derive(Clone, Copy)]
pub struct Record {
    pub place: usize,
    pub kind: usize,
    pub start: usize,
    pub length: usize,
}

impl Record {
    // The body, in the bytes that the record was read from.
    #[inline(always)]
    pub fn body_in<'a>(&self, s: &'a [u8]) -> &'a [u8]
        ensures { result.now ≡ part s.now self.now.start self.now.length }
    {
        base::bytes::piece(s, self.start, self.length)
    }
}

// A walk over the records from an offset on. Where a record runs past the end it gives the record's place as an error, and then nothing more.
#[derive(Clone, Copy)]
pub struct Records<'a> {
    bytes: &'a [u8],
    at: usize,
}

pub fn records_from<'a>(s: &'a [u8], at: usize) -> Records<'a>
    ensures walked { left result ≡ records s.now at }
    ensures stands { (result.bytes.now ≡ s.now) × (result.at ≡ at) }
{
    Records { bytes: s, at }
}

impl<'a> Iterator for Records<'a> {
    ghost use Rattle.record.specs.Walked.{Gives, items_left};

    type Item = Result<Record, usize>;

    ghost next_gives = { Gives };

    ghost remaining = { items_left };

    #[inline(always)]
    fn next(&mut self) -> Option<Result<Record, usize>> {
        let place = self.at;
        match record_at(self.bytes, place) {
            RecordAt::Whole {
                kind,
                start,
                length,
                next,
            } => {
                self.at = next;
                Some(Ok(Record {
                    place,
                    kind,
                    start,
                    length,
                }))
            }
            RecordAt::Broken => {
                self.at = self.bytes.len();
                Some(Err(place))
            }
            RecordAt::End => None,
        }
    }
}
