// watch (query, table, run, window, need, marks).
ghost use Rattle.std.specs.Prelude.{◌≡◌, length};
ghost use Rattle.watch.specs.Watch as Watch;

use crate::refusal::{WatchCause, WatchRefusal, WatchTotals};
use crate::window::watch_marks;
use mark::mark::mark;

fn in_range(window: usize, need: usize) -> bool
    ensures { result ≡ Watch.in_range window need }
{
    ((1 <= window) & (window <= 64)) & ((1 <= need) & (need <= window))
}

// One mark for each instance of the run, 1 where at least `need` of the last `window` instances are included, and how many are 1 and 0;
// a refused call leaves the marks as they are.
#[tactic(auto, using(crate::proofs::Laws::enough))]
pub fn watch<'a>(
    query: &'a [u8],
    table: &'a [u8],
    run: &'a [u8],
    window: usize,
    need: usize,
    marks: &mut [u8],
) -> Result<WatchTotals, WatchRefusal>
    ensures { (result ≡ Watch.watch query.now table.now run.now window need (length marks.old)) × (marks.new ≡ Watch.marks_after query.now table.now run.now window need marks.old) × (length marks.new ≡ length marks.old) }
{
    if !in_range(window, need) {
        return Err(WatchRefusal {
            cause: WatchCause::Window,
            place: 0,
        });
    }
    let totals = mark(query, table, run, marks)?;
    Ok(watch_marks(
        marks,
        totals.included + totals.excluded + totals.failed,
        window,
        need,
    ))
}
