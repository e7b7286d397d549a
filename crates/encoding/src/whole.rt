// Sequences of up to three bytes, in blocks: each byte that is no continuation starts one that no further continuation byte follows.
ghost use Rattle.std.specs.Prelude.{◌≡◌, ◌+◌, ◌-◌, ◌≤◌, ◌<◌, length};
ghost use Rattle.encoding.specs.Blocks.{is_continuation, of_one, of_two, of_three, all_whole, whole_at, WholeRun, LastStart, Moved};

use base::bytes::in_range;

#[tactic(auto, unfolding(base::specs::Range::within))]
pub(crate) fn is_continuation(b: u8) -> bool
    ensures { result ≡ is_continuation b }
{
    matches!(b, 0x80..=0xbf)
}

fn of_one(b: u8, c: u8) -> bool
    ensures { result ≡ of_one b c }
{
    (b < 0x80) & !is_continuation(c)
}

fn of_two(b: u8, c: u8, d: u8) -> bool
    ensures { result ≡ of_two b c d }
{
    in_range(0xc2, 0xdf, b) & is_continuation(c) & !is_continuation(d)
}

// After E0 lower bytes would be an overlong form, after ED higher ones surrogates.
fn of_three(b: u8, c: u8, d: u8, e: u8) -> bool
    ensures { result ≡ of_three b c d e }
{
    let first = in_range(0xe0, 0xef, b);
    let second = ((b != 0xe0) | (0xa0 <= c)) & ((b != 0xed) | (c <= 0x9f));
    first & second & is_continuation(c) & is_continuation(d) & !is_continuation(e)
}

fn is_whole(s: &[u8], at: usize) -> bool
    requires { at + 3 < length s.now }
    ensures { result ≡ whole_at s.now at }
{
    let b = s[at];
    let c = s[at + 1];
    let d = s[at + 2];
    is_continuation(b) | of_one(b, c) | of_two(b, c, d) | of_three(b, c, d, s[at + 3])
}

// Whether it is so at 16 places. All of them are looked at: where no byte ends the loop early, the compiler tests them at once.
fn whole_block(s: &[u8], at: usize) -> bool
    requires { at + 18 < length s.now }
    ensures { result ≡ all_whole s.now at 16 }
{
    let mut all = true;
    for i in 0..16 {
        all = all & is_whole(s, at + i);
    }
    all
}

// The end of the blocks from `at` on, up to the first in which it isn't so.
fn whole_blocks(s: &[u8], at: usize, stop: usize) -> usize
    requires { (at < stop) × (stop ≤ length s.now) }
    ensures { WholeRun s.now at stop result }
{
    let mut end = at;
    while 19 <= stop - end {
        if !whole_block(s, end) {
            return end;
        }
        end += 16;
    }
    end
}

fn last_start(s: &[u8], at: usize, end: usize) -> usize
    requires { (at ≤ end) × (end < length s.now) }
    ensures { LastStart s.now at end result }
{
    for start in (at + 1..end + 1).rev() {
        if !is_continuation(s[start]) {
            return start;
        }
    }
    at
}

// The end of sequences from `at` on: of those that start in such blocks, all but the last.
pub(crate) fn pass_whole(s: &[u8], at: usize, stop: usize) -> usize
    requires { (at < stop) × (stop ≤ length s.now) }
    ensures { Moved s.now at stop result }
{
    if is_continuation(s[at]) {
        return at;
    }
    let end = whole_blocks(s, at, stop);
    last_start(s, at, end)
}
