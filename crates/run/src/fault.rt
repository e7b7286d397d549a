// What is wrong with a run or with the marks for it, with 01's numbers.
ghost use Rattle.std.specs.Prelude.{◌≡◌};
ghost use Rattle.run.specs.Fault.{number_of};

// The run doesn't divide into instances; the marks are fewer than these.
#[derive(Clone, Copy, PartialEq, Eq)]
pub enum RunFault {
    Indivisible,
    MarksTooFew,
}

pub fn number_of(fault: RunFault) -> usize
    ensures { result ≡ number_of fault }
{
    match fault {
        RunFault::Indivisible => 40,
        RunFault::MarksTooFew => 41,
    }
}
