// The record at an offset.
ghost use Rattle.std.specs.Prelude.{◌≡◌, eqb};
ghost use Rattle.base.specs.Pick.{pick};
ghost use Rattle.record.specs.Record.{record_at};

// What stands at an offset: a whole record, one that runs past the end, or the end.
#[derive(Clone, Copy)]
pub enum RecordAt {
    Whole {
        kind: usize,
        start: usize,
        length: usize,
        next: usize,
    },
    Broken,
    End,
}

// The two-byte number at an offset.
pub fn number_at(s: &[u8], at: usize) -> usize
    ensures { result ≡ Rattle.record.specs.Record.number_at s.now at }
{
    base::integer::unsigned_in(base::bytes::piece(s, at, 2)) as usize
}

// Where fewer bytes are left than a record's head takes.
fn end_or_broken(left: usize) -> RecordAt
    ensures { result ≡ pick (eqb left 0) RecordAt.End RecordAt.Broken }
{
    if left == 0 {
        return RecordAt::End;
    }
    RecordAt::Broken
}

// Both tests against the end have the same form: in a loop over records the compiler then sees that the offset after a whole record is within the slice, and leaves the first test out.
pub fn record_at(s: &[u8], at: usize) -> RecordAt
    ensures { result ≡ record_at s.now at }
{
    if s.len() < at {
        return RecordAt::End;
    }
    let left = s.len() - at;
    if left < 4 {
        return end_or_broken(left);
    }
    let length = number_at(s, at);
    let next = at + 4 + length;
    if s.len() < next {
        return RecordAt::Broken;
    }
    let kind = number_at(s, at + 2);
    RecordAt::Whole {
        kind,
        start: at + 4,
        length,
        next,
    }
}
