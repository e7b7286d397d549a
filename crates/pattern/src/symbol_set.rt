// Sets of symbols, member by member: the work then grows with the members and not with the symbols that there are.
ghost use Rattle.std.specs.Prelude.{◌≡◌, true, ◌<◌};
ghost use Rattle.base.specs.Bits.{bit};
ghost use Rattle.pattern.specs.Links.{Without, Outside};

// The least member of a set.
#[tactic(auto, using(crate::proofs::Linking::least_in))]
pub(crate) fn least_in(set: u64) -> usize
    requires { set ≡ 0 → ⊥ }
    ensures { (result < 64) × (bit set result ≡ true) }
{
    u64::trailing_zeros(set) as usize
}

// The set without its member k.
pub(crate) fn without(set: u64, k: usize) -> u64
    requires { (k < 64) × (bit set k ≡ true) }
    ensures { Without set k result }
{
    set ^ (1u64 << k)
}

// The members of a set that another has not.
#[tactic(auto, using(crate::proofs::Linking::outside_of))]
pub(crate) fn outside(set: u64, other: u64) -> u64
    ensures { Outside set other result }
{
    set ^ (set & other)
}
