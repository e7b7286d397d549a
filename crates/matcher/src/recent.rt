// The sets of live symbols that were gathered last, and what may come after each: a text mostly goes round in a few sets.
ghost use Rattle.std.specs.Prelude.{◌≡◌, ◌<◌, get_or, IfSome};
ghost use Rattle.matcher.specs.Recent.{Recalls};

use pattern::links::{LINKS, closed_in, simple_in};

// With more places more sets would be found, and one that isn't would take longer.
pub const PLACES: usize = 4;

// In shorter texts there is less to gather than to find the simple symbols, and the closed ones.
const LONG: usize = 256;

const LONGER: usize = 4096;

#[derive(Drop)]
pub struct Recent {
    pub sets: [u64; PLACES],
    pub onward: [u64; PLACES], // what may come after each set
    pub simple: u64, // symbols by which less is to be gathered; here and not in locals, of which the matcher's loop has enough
    pub closed: u64,
}

impl Recent {
    // For a text of n bytes.
    pub fn new(links: &[u64; LINKS], n: usize) -> Recent
        ensures { Recalls links.now result }
    {
        let mut recent = Recent {
            sets: [0; PLACES],
            onward: [0; PLACES],
            simple: 0,
            closed: 0,
        };
        if n < LONG {
            return recent;
        }
        recent.simple = simple_in(links);
        if n < LONGER {
            return recent;
        }
        recent.closed = closed_in(links, recent.simple);
        recent
    }

    // Where a set is.
    pub(crate) fn place_of(&self, set: u64) -> Option<usize>
        ensures { IfSome result (λ k. (k < 4) × (get_or self.now.sets k 0 ≡ set)) }
    {
        for k in 0..PLACES {
            if self.sets[k] == set {
                return Some(k);
            }
        }
        None
    }
}
