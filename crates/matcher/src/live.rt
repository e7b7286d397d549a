// The pattern's live symbols: the state goes in by value, and a step hands back the next one.
ghost use Rattle.std.specs.Prelude.{◌≡◌};
ghost use Rattle.matcher.specs.Live.{initial, next_set, accepted, Kept, Steps};
ghost use Rattle.matcher.specs.Recent.{Recalls};

use crate::recent::{PLACES, Recent};
use pattern::fragment::Fragment;
use pattern::links::{LINKS, gather};

#[derive(Clone, Copy)]
pub struct Live {
    pub set: u64, // the live symbols; none before the first character
    pub onward: u64, // the symbols that may come next
    pub place: usize, // where the next set that is gathered is remembered
}

impl Live {
    // Before the first character.
    pub fn start(first: u64) -> Live
        ensures { result ≡ initial first }
    {
        Live {
            set: 0,
            onward: first,
            place: 0,
        }
    }

    // The symbols that are live after a character for which those of `hit` stand.
    pub fn next_set(self, hit: u64) -> u64
        ensures { result ≡ next_set self hit }
    {
        self.onward & hit
    }

    // After a character with which the symbols of `set` are live.
    #[tactic(auto, using(crate::proofs::Recalled::stays, crate::proofs::Recalled::recalled, crate::proofs::Recalled::gathered, crate::proofs::Recalled::recalls_more))]
    pub fn step(self, links: &[u64; LINKS], recent: &mut Recent, set: u64) -> Live
        requires { Recalls links.now recent.old × Kept links.now self }
        ensures { Steps links.now set result × Recalls links.now recent.new }
    {
        if set == self.set {
            return self;
        }
        if let Some(k) = recent.place_of(set) {
            return Live {
                set,
                onward: recent.onward[k],
                ..self
            };
        }
        let place = self.place;
        let onward = gather(links, recent.simple, recent.closed, set);
        recent.sets[place] = set;
        recent.onward[place] = onward;
        Live {
            set,
            onward,
            place: (place + 1) % PLACES,
        }
    }

    // Whether the text may end here.
    pub fn accepts(self, whole: Fragment) -> bool
        ensures { result ≡ accepted whole self }
    {
        if self.set != 0 {
            return self.set & whole.last != 0;
        }
        whole.nullable
    }
}
