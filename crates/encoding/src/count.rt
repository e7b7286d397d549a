// The number of a text's characters.
ghost use Rattle.std.specs.Prelude.{◌≡◌, ◌<◌, length};
ghost use Rattle.encoding.specs.Characters.{characters_from};
ghost use Rattle.encoding.specs.Blocks.{Block};

use crate::sequence::sequence_at;
use crate::text::all_ascii;

const BLOCK: usize = 16;

// Whether a block of ASCII starts with the character of `n` bytes.
fn is_block(s: &[u8], at: usize, n: usize) -> bool
    requires { at < length s.now }
    ensures { Block s.now at result }
{
    n == 1 && BLOCK <= s.len() - at && all_ascii(s, at, BLOCK)
}

// How many characters there are from a place on.
pub fn count_from(s: &[u8], at: usize) -> usize
    ensures { result ≡ length (characters_from s.now at) }
{
    let mut next = at;
    let mut count = 0;
    while next < s.len() {
        let n = sequence_at(s, next);
        if n == 0 {
            return count;
        }
        if is_block(s, next, n) {
            next += BLOCK;
            count += BLOCK;
        } else {
            next += n;
            count += 1;
        }
    }
    count
}
