// The sets of a part of a pattern. A set of symbols is a number: bit k is symbol k.
ghost use Rattle.std.specs.Prelude.{◌≡◌, ◌<◌};
ghost use Rattle.pattern.specs.Automaton.{kept_if, symbol_fragment, sequence_fragment, alternatives_fragment, optional_fragment};

#[derive(Clone, Copy)]
pub struct Fragment {
    pub nullable: bool, // matches the empty text
    pub first: u64, // the symbols that may come first
    pub last: u64, // those that may come last
}

pub fn keep_if(b: bool, set: u64) -> u64
    ensures { result ≡ kept_if b set }
{
    if b { set } else { 0 }
}

impl Fragment {
    // Of no alternative.
    pub(crate) const NONE: Fragment = Fragment {
        nullable: false,
        first: 0,
        last: 0,
    };

    pub(crate) const EMPTY: Fragment = Fragment {
        nullable: true,
        first: 0,
        last: 0,
    };

    // Of symbol k.
    #[tactic(auto, using(crate::proofs::Linking::shl_one))]
    pub(crate) fn of_symbol(k: usize) -> Fragment
        requires { k < 64 }
        ensures { result ≡ symbol_fragment k }
    {
        let set = 1u64 << k;
        Fragment {
            nullable: false,
            first: set,
            last: set,
        }
    }

    pub(crate) fn then(self, next: Fragment) -> Fragment
        ensures { result ≡ sequence_fragment self next }
    {
        let first = keep_if(self.nullable, next.first);
        let last = keep_if(next.nullable, self.last);
        Fragment {
            nullable: self.nullable & next.nullable,
            first: self.first | first,
            last: next.last | last,
        }
    }

    pub(crate) fn or(self, other: Fragment) -> Fragment
        ensures { result ≡ alternatives_fragment self other }
    {
        Fragment {
            nullable: self.nullable | other.nullable,
            first: self.first | other.first,
            last: self.last | other.last,
        }
    }

    pub(crate) fn optional(self) -> Fragment
        ensures { result ≡ optional_fragment self }
    {
        Fragment {
            nullable: true,
            ..self
        }
    }
}
