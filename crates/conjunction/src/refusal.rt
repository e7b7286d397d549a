// What conjoin returns: the written text's length, or a refusal, with 02's numbers 43 and 44 and the check's own.
ghost use Rattle.std.specs.Prelude.{◌≡◌};
ghost use Rattle.conjunction.specs.Conjoin.{number_of, query_of};

use filter::refusal::Cause;

// First, Second: the check refuses that query. Size: the result would have too many comparisons or bytes. Buffer: the result is longer than the buffer.
#[derive(Clone, Copy)]
pub enum ConjoinCause {
    First(Cause),
    Second(Cause),
    Size,
    Buffer,
}

#[derive(Drop)]
pub struct ConjoinRefusal {
    pub cause: ConjoinCause,
    pub place: usize,
}

// The number of a cause, 02's or 01's.
pub fn number_of(cause: ConjoinCause) -> usize
    ensures { result ≡ number_of cause }
{
    match cause {
        ConjoinCause::First(c) => filter::refusal::number_of(c),
        ConjoinCause::Second(c) => filter::refusal::number_of(c),
        ConjoinCause::Size => 43,
        ConjoinCause::Buffer => 44,
    }
}

// Which query is at fault: 1 or 2, or 0 for neither.
pub fn query_of(cause: ConjoinCause) -> usize
    ensures { result ≡ query_of cause }
{
    match cause {
        ConjoinCause::First(_) => 1,
        ConjoinCause::Second(_) => 2,
        ConjoinCause::Size => 0,
        ConjoinCause::Buffer => 0,
    }
}
