// A whole text.
ghost use Rattle.std.specs.Prelude.{◌≡◌, ◌-◌, ◌≤◌, ◌<◌, length};
ghost use Rattle.encoding.specs.WellFormed.{first_ill_formed};
ghost use Rattle.encoding.specs.Blocks.{all_ascii, EndsAscii, Passed, Walked, Moved};

use crate::whole::pass_whole;

// Whether the `n` bytes from `at` on are below 0x80. All of them are looked at: where no byte ends the loop early, the compiler tests a block at once.
pub(crate) fn all_ascii(s: &[u8], at: usize, n: usize) -> bool
    requires { n ≤ length s.now - at }
    ensures { result ≡ all_ascii s.now at n }
{
    let mut all = true;
    for i in 0..n {
        all = all & (s[at + i] < 0x80);
    }
    all
}

// The end of the sequences from `at` on that end by `stop`, or the first ill-formed place among them.
fn pass_sequences(s: &[u8], at: usize, stop: usize) -> usize
    requires { (at < stop) × (stop ≤ length s.now) }
    ensures { Passed s.now at stop result }
{
    let mut next = at;
    while next < stop {
        let n = crate::sequence::sequence_at(s, next);
        if (n == 0) | (stop - next < n) {
            return next;
        }
        next += n;
    }
    next
}

// Whether the last `left` bytes are ASCII, by blocks that may overlap; of a text of fewer than 4 bytes it isn't told.
fn ends_ascii(s: &[u8], left: usize) -> bool
    requires { left < 16 }
    ensures { EndsAscii s.now left result }
{
    let n = s.len();
    if 16 <= n {
        return all_ascii(s, n - 16, 16);
    }
    if 8 <= n {
        return all_ascii(s, 0, 8) & all_ascii(s, n - 8, 8);
    }
    if 4 <= n {
        return all_ascii(s, 0, 4) & all_ascii(s, n - 4, 4);
    }
    false
}

// The end of the next block: 16 bytes of ASCII; blocks of sequences of up to three bytes; or sequences of 64 bytes or so, so that a text with many others is seldom tried in vain.
fn pass_block(s: &[u8], at: usize, stop: usize) -> usize
    requires { (at < stop) × (stop ≤ length s.now) }
    ensures { Passed s.now at stop result }
{
    let left = stop - at;
    if left < 16 {
        return pass_sequences(s, at, stop);
    }
    if all_ascii(s, at, 16) {
        return at + 16;
    }
    let next = pass_whole(s, at, stop);
    if next != at {
        return next;
    }
    if left < 64 {
        return pass_sequences(s, at, stop);
    }
    pass_sequences(s, at, at + 64)
}

// The end of the sequences from `at` on that end by `stop`: the last one's, or the first ill-formed place.
pub fn pass_text(s: &[u8], at: usize, stop: usize) -> usize
    ensures { Walked s.now at stop result }
{
    let end = s.len().min(stop);
    let mut next = at;
    while next < end {
        let then = pass_block(s, next, end);
        if then == next {
            return next;
        }
        next = then;
    }
    next
}

// The end of the ASCII with which a text begins, by blocks; most texts have nothing else.
fn pass_ascii(s: &[u8]) -> usize
    ensures { Moved s.now 0 (length s.now) result }
{
    let mut next = 0;
    while 16 <= s.len() - next {
        if !all_ascii(s, next, 16) {
            return next;
        }
        next += 16;
    }
    if ends_ascii(s, s.len() - next) {
        return s.len();
    }
    next
}

// Whether a text is well-formed; the error is the first byte of its first ill-formed sequence.
pub fn check_utf8(s: &[u8]) -> Result<(), usize>
    ensures { result ≡ first_ill_formed s.now }
{
    let start = pass_ascii(s);
    if s.len() <= start {
        return Ok(());
    }
    let rest = &s[start..];
    let end = pass_text(rest, 0, rest.len());
    if end < rest.len() {
        return Err(start + end);
    }
    Ok(())
}
