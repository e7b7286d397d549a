// The pass over the plain marks: from the last to the first and in place, since a mark needs no plain mark after its own.
ghost use Rattle.std.specs.Prelude.{◌≡◌, ◌++◌, ◌+◌, ◌≤◌, ◌<◌, length, take, drop, leb};
ghost use Rattle.base.specs.Pick.{pick};
ghost use Rattle.watch.specs.Window.{is_one, included, watch_marks};
ghost use Rattle.watch.specs.Watch.{totals_of};

use crate::refusal::WatchTotals;

// 1 for a mark of 1, else 0: neither 0 nor 255 counts.
fn one_of(mark: u8) -> usize
    ensures { result ≡ pick (is_one mark) 1 0 }
{
    usize::from(mark == 1)
}

fn window_mark(held: usize, need: usize) -> u8
    ensures { result ≡ pick (leb need held) 1 0 }
{
    u8::from(need <= held)
}

// How many instances of the window that ends before `end` are included.
#[tactic(auto, using(crate::proofs::Counting::counting_begins))]
fn included_before(marks: &[u8], end: usize, window: usize) -> usize
    requires { end ≤ length marks.now }
    ensures { result ≡ included window (take end marks.now) }
{
    let mut ones: usize = 0;
    for mark in &marks[end.saturating_sub(window)..end] {
        ones += one_of(*mark);
    }
    ones
}

// The same, where `held` of the window that ends with `end` are: one mark leaves it and, if the window reaches so far back, one comes in.
fn moved_before(marks: &[u8], end: usize, window: usize, held: usize) -> usize
    requires { (end < length marks.now) × (1 ≤ window) × (held ≡ included window (take (end + 1) marks.now)) }
    ensures { result ≡ included window (take end marks.now) }
{
    let kept = held - one_of(marks[end]);
    if end < window {
        return kept;
    }
    kept + one_of(marks[end - window])
}

// Makes the first `count` marks, which are plain, those of the watch.
#[tactic(auto, using(crate::proofs::Passing::passing_begins, crate::proofs::Passing::passing_room, crate::proofs::Passing::passing_window, crate::proofs::Passing::passing_fits, crate::proofs::Passing::passing_most, crate::proofs::Passing::passing_same, crate::proofs::Passing::passing_totals, crate::proofs::Passing::passing_marks))]
pub(crate) fn watch_marks(marks: &mut [u8], count: usize, window: usize, need: usize) -> WatchTotals
    requires { (count ≤ length marks.old) × (1 ≤ window) }
    ensures { (result ≡ totals_of (watch_marks window need (take count marks.old))) × (marks.new ≡ watch_marks window need (take count marks.old) ++ drop count marks.old) × (length marks.new ≡ length marks.old) }
{
    let mut held = included_before(marks, count, window);
    let mut ones: usize = 0;
    for left in (0..count).rev() {
        let mark = window_mark(held, need);
        held = moved_before(marks, left, window, held);
        marks[left] = mark;
        ones += one_of(mark);
    }
    WatchTotals {
        ones,
        zeros: count - ones,
    }
}
