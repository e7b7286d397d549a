// Why a comparison is refused.
ghost use Rattle.std.specs.Prelude.{◌≡◌};
ghost use Rattle.operand.specs.Cause.{number_of};

#[derive(Clone, Copy)]
pub enum Cause {
    Name,
    Shape,
    Row,
    Range,
    Pattern,
    Datetime,
}

// What is wrong with a comparison, and where.
#[derive(Clone, Copy)]
pub struct ComparisonRefusal {
    pub cause: Cause,
    pub place: usize,
}

impl Cause {
    pub fn at(self, place: usize) -> ComparisonRefusal
        ensures { result ≡ record { cause = self; place = place } }
    {
        ComparisonRefusal { cause: self, place }
    }
}

// 01's number of a cause.
pub fn number_of(cause: Cause) -> usize
    ensures { result ≡ number_of cause }
{
    match cause {
        Cause::Name => 20,
        Cause::Shape => 22,
        Cause::Row => 21,
        Cause::Range => 23,
        Cause::Pattern => 24,
        Cause::Datetime => 25,
    }
}
