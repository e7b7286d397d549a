// Where the records of a slice start.
ghost use Rattle.std.specs.Prelude.{◌≡◌};
ghost use Rattle.instance.specs.Start.{next_at, start_of};

use record::read::{RecordAt, record_at};

fn next_after(i: &[u8], at: usize) -> usize
    ensures { result ≡ next_at i.now at }
{
    match record_at(i, at) {
        RecordAt::Whole { next, .. } => next,
        _ => at,
    }
}

// Where a record starts, counted from 0. Past the last one nothing follows, so that no number takes longer than the records do.
pub fn start_of(i: &[u8], number: usize) -> usize
    ensures { result ≡ start_of i.now number }
{
    let mut at: usize = 0;
    for n in 0..number {
        let next = next_after(i, at);
        if next == at {
            return at;
        }
        at = next;
    }
    at
}
