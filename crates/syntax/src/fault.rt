// Why a query's text is refused, and where.
ghost use Rattle.std.specs.Prelude.{◌≡◌};
ghost use Rattle.syntax.specs.declared.fault.Cause.TheVariants.{Grammar};
ghost use Rattle.syntax.specs.Scan.{fault, limited};

// 01's numbers 1, 10, 11 and 12.
#[derive(Clone, Copy)]
pub enum Cause {
    Length,
    Encoding,
    Grammar,
    Limit,
}

// 01's place: a byte offset.
#[derive(Drop)]
pub struct Fault {
    pub cause: Cause,
    pub place: usize,
}

pub fn grammar_at(place: usize) -> Fault
    ensures { result ≡ fault Grammar place }
{
    Fault {
        cause: Cause::Grammar,
        place,
    }
}

// The fault where a limit is used up: one more stands there, or the grammar breaks.
pub fn limit_at(over: bool, place: usize) -> Fault
    ensures { result ≡ limited over place }
{
    if !over {
        return grammar_at(place);
    }
    Fault {
        cause: Cause::Limit,
        place,
    }
}
