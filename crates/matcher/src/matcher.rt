// LIKE of a text: the pattern is read once, and each character moves its live symbols on.
ghost use Rattle.std.specs.Prelude.{◌≡◌, [], ◌∷◌};
ghost use Rattle.pattern.specs.Reading.{parse};
ghost use Rattle.matcher.specs.Matcher.{like_of, match_of, Linked};
ghost use Rattle.matcher.specs.Recent.{Recalls};
ghost use Rattle.matcher.specs.Remembered.{Remembers};

use crate::live::Live;
use crate::recent::Recent;
use crate::remembered::Memory;
use encoding::count::count_from;
use encoding::sequence::sequence_at;
use pattern::fragment::Fragment;
use pattern::hits::hits_of;
use pattern::links::LINKS;
use pattern::reader::read_pattern;

// Whether a text matches, and how many characters it has.
#[derive(Drop)]
pub struct Matched {
    pub holds: bool,
    pub characters: usize,
}

// With the pattern's sets and links. Where no symbol is live any more, the characters are only counted.
// The pattern and the links stand beside their tables: held in them, each contract of a table would have to say that they stay.
fn match_with(
    p: &[u32],
    text: &[u8],
    whole: Fragment,
    links: &[u64; LINKS],
    memory: &mut Memory,
    recent: &mut Recent,
) -> Matched
    requires { Linked (parse p.now) whole links.now × Remembers p.now memory.old × Recalls links.now recent.old }
    ensures { result ≡ match_of p.now text.now }
{
    let mut live = Live::start(whole.first);
    let mut at = 0;
    let mut count = 0;
    while at < text.len() {
        let n = sequence_at(text, at);
        if n == 0 {
            return Matched {
                holds: live.accepts(whole),
                characters: count,
            };
        }
        let set = live.next_set(memory.hit_at(p, text, at, n));
        if set == 0 {
            let characters = count + count_from(text, at);
            return Matched {
                holds: false,
                characters,
            };
        }
        at += n;
        count += 1;
        live = live.step(links, recent, set);
    }
    Matched {
        holds: live.accepts(whole),
        characters: count,
    }
}

// LIKE of a text in UTF-8.
#[tactic(auto, using(crate::proofs::Texts::linked, crate::proofs::Texts::match_none))]
pub fn match_text(p: &[u32], text: &[u8]) -> Matched
    ensures { result ≡ match_of p.now text.now }
{
    let mut links = [0u64; LINKS];
    let Some(whole) = read_pattern(p, &mut links) else {
        return Matched {
            holds: false,
            characters: count_from(text, 0),
        };
    };
    let mut memory = Memory::new();
    let mut recent = Recent::new(&links, text.len());
    match_with(p, text, whole, &links, &mut memory, &mut recent)
}

// LIKE of a text of one character.
#[tactic(auto, using(crate::proofs::Texts::one_none))]
pub fn match_one(p: &[u32], c: u32) -> bool
    ensures { result ≡ like_of (parse p.now) (c ∷ []) }
{
    let mut links = [0u64; LINKS];
    let Some(whole) = read_pattern(p, &mut links) else {
        return false;
    };
    let set = Live::start(whole.first).next_set(hits_of(p, c));
    set & whole.last != 0
}
