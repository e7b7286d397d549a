// Refusals of mark: the check's, and those of the run and of the marks, with 01's numbers.
ghost use Rattle.std.specs.Prelude.{◌≡◌};
ghost use Rattle.mark.specs.Mark.{number_of};

use filter::refusal::{Cause, Refusal};
use run::fault::RunFault;

#[derive(Drop)]
pub enum MarkCause {
    Call(Cause),
    Run(RunFault),
}

#[derive(Drop)]
pub struct MarkRefusal {
    pub cause: MarkCause,
    pub place: usize,
}

// The check's, with its cause and place.
impl From<Refusal> for MarkRefusal {
    ghost use Rattle.mark.specs.declared.refusal.MarkCause.{MarkCause};

    ghost from_gives = { λ r m. m ≡ record { cause = MarkCause.Call r.cause; place = r.place } };

    fn from(r: Refusal) -> MarkRefusal {
        MarkRefusal {
            cause: MarkCause::Call(r.cause),
            place: r.place,
        }
    }
}

// 01's number of a cause.
pub fn number_of(cause: MarkCause) -> usize
    ensures { result ≡ number_of cause }
{
    match cause {
        MarkCause::Call(c) => filter::refusal::number_of(c),
        MarkCause::Run(f) => run::fault::number_of(f),
    }
}
