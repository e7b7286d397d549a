// What an answer adds to the marks and to the totals.
ghost use Rattle.std.specs.Prelude.{◌≡◌, ◌+◌, ◌<◌};
ghost use Rattle.run.specs.Totals.{mark_of, counted};

use filter::refusal::{Answer, Refusal};

// How many instances of a run are included, excluded, and fail.
#[derive(Clone, Copy, PartialEq, Eq)]
pub struct Totals {
    pub included: usize,
    pub excluded: usize,
    pub failed: usize,
}

pub fn mark_of(answer: Result<Answer, Refusal>) -> u8
    ensures { result ≡ mark_of answer }
{
    match answer {
        Ok(Answer::Included(_)) => 1,
        Ok(Answer::Excluded(_)) => 0,
        Err(_) => 255,
    }
}

// The totals with one answer more.
#[tactic(auto, using(crate::proofs::Counting::counts_included, crate::proofs::Counting::counts_excluded, crate::proofs::Counting::counts_failed))]
pub fn count_answer(totals: Totals, answer: Result<Answer, Refusal>) -> Totals
    requires { totals.included + totals.excluded + totals.failed < 18446744073709551615 }
    ensures { result ≡ counted totals answer }
{
    match answer {
        Ok(Answer::Included(_)) => Totals {
            included: totals.included + 1,
            ..totals
        },
        Ok(Answer::Excluded(_)) => Totals {
            excluded: totals.excluded + 1,
            ..totals
        },
        Err(_) => Totals {
            failed: totals.failed + 1,
            ..totals
        },
    }
}
