// The links of a pattern: for each of its symbols those that may follow it, whatever the character.
ghost use Rattle.std.specs.Prelude.{◌≡◌, ◌<◌};
ghost use Rattle.base.specs.Bits.{bit};
ghost use Rattle.pattern.specs.Automaton.{kept_if, over};
ghost use Rattle.pattern.specs.Links.{Adds, Gathers, Simple, Closed};

use crate::fragment::keep_if;
use crate::symbol_set::{least_in, outside, without};

// A set of symbols has 64 places.
pub const LINKS: usize = 64;

// Puts the symbols of `first` behind each of `last`.
#[tactic(auto, using(crate::proofs::Linking::linking_start))]
pub(crate) fn link(links: &mut [u64; LINKS], last: u64, first: u64)
    ensures { Adds (over last first) links.old links.new }
{
    let mut left = last;
    while left != 0 {
        let k = least_in(left);
        links[k] |= first;
        left = without(left, k);
    }
}

// The symbols that lead to the next one only.
#[tactic(auto, using(crate::proofs::Gathering::simple_none, crate::proofs::Gathering::simple_more))]
pub fn simple_in(links: &[u64; LINKS]) -> u64
    ensures { Simple links.now result }
{
    let mut found = 0u64;
    for k in 0..63 {
        let own = keep_if(links[k] == 2u64 << k, 1u64 << k);
        found |= own;
    }
    found
}

// The symbols of which whatever follows one that may follow them may follow them too.
#[tactic(auto, using(crate::proofs::Gathering::closed_none, crate::proofs::Gathering::closed_more))]
pub fn closed_in(links: &[u64; LINKS], simple: u64) -> u64
    requires { Simple links.now simple }
    ensures { Closed links.now result }
{
    let mut found = 0u64;
    for k in 0..LINKS {
        let next = links[k];
        let after = gather(links, simple, 0, next);
        let own = keep_if(after & next == after, 1u64 << k);
        found |= own;
    }
    found
}

// Those whose links need no look after symbol k, to which `next` leads.
fn covered(closed: u64, k: usize, next: u64) -> u64
    requires { k < 64 }
    ensures { result ≡ kept_if (bit closed k) next }
{
    keep_if((closed >> k) % 2 == 1, next)
}

// The symbols that may follow one of a set: what follows the simple ones at once, and what follows the others one by one.
#[tactic(auto, using(crate::proofs::Gathering::gathering_start, crate::proofs::Gathering::gathering_end))]
pub fn gather(links: &[u64; LINKS], simple: u64, closed: u64, set: u64) -> u64
    requires { Simple links.now simple × Closed links.now closed }
    ensures { Gathers links.now set result }
{
    let mut left = outside(set, simple);
    let mut found = (set & simple) << 1;
    while left != 0 {
        let k = least_in(left);
        let next = links[k];
        found |= next;
        left = outside(without(left, k), covered(closed, k, next));
    }
    found
}
