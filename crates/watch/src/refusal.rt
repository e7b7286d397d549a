// What watch returns: the totals, or a refusal, with 02's number 42 and mark's own.
ghost use Rattle.std.specs.Prelude.{◌≡◌};
ghost use Rattle.watch.specs.Watch.{number_of};

use mark::refusal::{MarkCause, MarkRefusal};

// How many instances are marked 1, and how many 0.
#[derive(Drop)]
pub struct WatchTotals {
    pub ones: usize,
    pub zeros: usize,
}

// Window: the window or the need is outside its range.
#[derive(Drop)]
pub enum WatchCause {
    Window,
    Mark(MarkCause),
}

#[derive(Drop)]
pub struct WatchRefusal {
    pub cause: WatchCause,
    pub place: usize,
}

// Mark's, with its cause and place.
impl From<MarkRefusal> for WatchRefusal {
    ghost use Rattle.watch.specs.declared.refusal.WatchCause.{WatchCause};

    ghost from_gives = { λ m w. w ≡ record { cause = WatchCause.Mark m.cause; place = m.place } };

    fn from(m: MarkRefusal) -> WatchRefusal {
        WatchRefusal {
            cause: WatchCause::Mark(m.cause),
            place: m.place,
        }
    }
}

// The number of a cause, 02's or 01's.
pub fn number_of(cause: WatchCause) -> usize
    ensures { result ≡ number_of cause }
{
    match cause {
        WatchCause::Window => 42,
        WatchCause::Mark(c) => mark::refusal::number_of(c),
    }
}
