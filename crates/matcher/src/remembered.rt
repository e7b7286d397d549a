// The symbols that stand for a character. To find them the pattern is read; for most characters of a text that is done once.
ghost use Rattle.std.specs.Prelude.{◌≡◌, ◌<◌, List, ℕ, length};
ghost use Rattle.encoding.specs.WellFormed.{sequence_at};
ghost use Rattle.encoding.specs.Scalar.{scalar_at};
ghost use Rattle.pattern.specs.Hits.{Hits};
ghost use Rattle.matcher.specs.Remembered.{Remembers};

use encoding::scalar::scalar_of;
use pattern::hits::hits_of;

const ASCII: usize = 128;

// Places for the others. With more places more would be found, and each text would take longer to clear them.
const PLACES: usize = 64;

// No symbol has this number: a set with it is known, also where no symbol stands for the character. An option would take a second load.
const KNOWN: u64 = 0x8000_0000_0000_0000;

#[derive(Drop)]
pub(crate) struct Memory {
    ascii: [u64; ASCII], // for each character of ASCII its symbols
    numbers: [u64; PLACES], // of the others at each place a character's number and one
    hits: [u64; PLACES], // and its symbols
}

fn place_of(c: u32) -> usize
    ensures { result < 64 }
{
    c as usize % PLACES
}

impl Memory {
    pub(crate) fn new() -> Memory
        ensures { (p : List ℕ) → Remembers p result }
    {
        Memory {
            ascii: [0; ASCII],
            numbers: [0; PLACES],
            hits: [0; PLACES],
        }
    }

    // What is found anew is put into memory by functions of their own, so that the compiler keeps nothing for them where it is known.
    #[tactic(auto, using(crate::proofs::Memory::ascii_known, crate::proofs::Memory::ascii_stored))]
    fn find_ascii(&mut self, p: &[u32], b: u8) -> u64
        requires { (b < 128) × Remembers p.now self.old }
        ensures { Hits p.now b result × Remembers p.now self.new }
    {
        let hit = hits_of(p, b as u32) | KNOWN;
        self.ascii[b as usize] = hit;
        hit
    }

    #[tactic(auto, using(crate::proofs::Memory::ascii_found))]
    fn hit_ascii(&mut self, p: &[u32], b: u8) -> u64
        requires { (b < 128) × Remembers p.now self.old }
        ensures { Hits p.now b result × Remembers p.now self.new }
    {
        let known = self.ascii[b as usize];
        if known != 0 {
            return known;
        }
        self.find_ascii(p, b)
    }

    #[tactic(auto, using(crate::proofs::Memory::other_stored))]
    fn find_other(&mut self, p: &[u32], c: u32) -> u64
        requires { Remembers p.now self.old }
        ensures { Hits p.now c result × Remembers p.now self.new }
    {
        let hit = hits_of(p, c);
        let k = place_of(c);
        self.numbers[k] = c as u64 + 1;
        self.hits[k] = hit;
        hit
    }

    #[tactic(auto, using(crate::proofs::Memory::other_found))]
    fn hit_other(&mut self, p: &[u32], c: u32) -> u64
        requires { Remembers p.now self.old }
        ensures { Hits p.now c result × Remembers p.now self.new }
    {
        let k = place_of(c);
        if self.numbers[k] == c as u64 + 1 {
            return self.hits[k];
        }
        self.find_other(p, c)
    }

    // Of the character of `n` bytes at an offset.
    pub(crate) fn hit_at(&mut self, p: &[u32], text: &[u8], at: usize, n: usize) -> u64
        requires { (at < length text.now) × (n ≡ sequence_at text.now at) × Remembers p.now self.old }
        ensures { Hits p.now (scalar_at text.now at) result × Remembers p.now self.new }
    {
        let b = text[at];
        if b < 0x80 {
            return self.hit_ascii(p, b);
        }
        self.hit_other(p, scalar_of(&text[at..at + n]))
    }
}
