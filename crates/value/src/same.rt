// Whether two sequences of units are the same.
ghost use Rattle.std.specs.Prelude.{◌≡◌};
ghost use Rattle.base.specs.Part.{same_bytes};
ghost use Rattle.value.specs.Unit.{units};
ghost use Rattle.value.specs.Plain.{Pairs};

use crate::skip::skip_common;
use crate::unit::Units;

// The next units of two sequences: the same one, with what follows it in each; two that differ, or one beside none; none on either side.
#[derive(Drop)]
pub enum Pair<'a> {
    Same(Units<'a>, Units<'a>),
    Differ,
    Ended,
}

#[inline(always)]
fn next_units<'a>(x: Units<'a>, y: Units<'a>) -> Pair<'a>
    ensures { Pairs (units x.entry) (units y.entry) result }
{
    match (x.next(), y.next()) {
        (Some((m, left)), Some((n, right))) => {
            if m != n {
                return Pair::Differ;
            }
            Pair::Same(left, right)
        }
        (None, None) => Pair::Ended,
        _ => Pair::Differ,
    }
}

// Whether the units of both are the same, one after the other, and equally many.
#[tactic(auto, using(crate::proofs::PlainUnits::skip_differ, crate::proofs::PlainUnits::pair_fewer, crate::proofs::PlainUnits::pair_next, crate::proofs::PlainUnits::pair_differ, crate::proofs::PlainUnits::pair_ended))]
pub fn same_units<'a>(x: Units<'a>, y: Units<'a>) -> bool
    ensures { result ≡ same_bytes (units x.entry) (units y.entry) }
{
    let mut left = x;
    let mut right = y;
    loop {
        let Some((first, second)) = skip_common(left, right) else {
            return false;
        };
        match next_units(first, second) {
            Pair::Same(m, n) => {
                left = m;
                right = n;
            }
            Pair::Differ => return false,
            Pair::Ended => return true,
        }
    }
}
