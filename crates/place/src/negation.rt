// NOT.
ghost use Rattle.std.specs.Prelude.{◌≡◌};
ghost use Rattle.place.specs.Negation.{reversed_if};

pub fn reverse_if(negated: bool, b: bool) -> bool
    ensures { result ≡ reversed_if negated b }
{
    negated != b
}
