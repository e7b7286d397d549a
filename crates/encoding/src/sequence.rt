// The well-formed sequence at a place (the Unicode Standard, Table 3-7).
ghost use Rattle.std.specs.Prelude.{◌≡◌, ◌≤◌, ◌<◌, length, get_or};
ghost use Rattle.base.specs.Range.{within};
ghost use Rattle.encoding.specs.Lead.{second_low, second_high};
ghost use Rattle.encoding.specs.WellFormed.{sequence_at};

use crate::whole::is_continuation;
use base::bytes::in_range;

// The lowest and the highest second byte: after E0 and F0 lower ones would be an overlong form, after ED higher ones surrogates, after F4 above 10FFFF.
fn second_range(first: u8) -> (u8, u8)
    ensures { result ≡ (second_low first, second_high first) }
{
    match first {
        0xe0 => (0xa0, 0xbf),
        0xed => (0x80, 0x9f),
        0xf0 => (0x90, 0xbf),
        0xf4 => (0x80, 0x8f),
        _ => (0x80, 0xbf),
    }
}

// Whether a byte may come after the first one.
fn is_second(first: u8, b: u8) -> bool
    ensures { result ≡ within (second_low first) (second_high first) b }
{
    let (low, high) = second_range(first);
    in_range(low, high, b)
}

fn two_at(s: &[u8], at: usize) -> usize
    requires { (at < length s.now) × (0x80 ≤ get_or s.now at 0) × (get_or s.now at 0 < 0xE0) }
    ensures { result ≡ sequence_at s.now at }
{
    if s[at] < 0xc2 {
        return 0;
    }
    if s.len() - at < 2 {
        return 0;
    }
    if is_continuation(s[at + 1]) { 2 } else { 0 }
}

fn three_at(s: &[u8], at: usize) -> usize
    requires { (at < length s.now) × (0xE0 ≤ get_or s.now at 0) × (get_or s.now at 0 < 0xF0) }
    ensures { result ≡ sequence_at s.now at }
{
    if s.len() - at < 3 {
        return 0;
    }
    if is_second(s[at], s[at + 1]) & is_continuation(s[at + 2]) {
        3
    } else {
        0
    }
}

fn four_at(s: &[u8], at: usize) -> usize
    requires { (at < length s.now) × (0xF0 ≤ get_or s.now at 0) × (get_or s.now at 0 < 256) }
    ensures { result ≡ sequence_at s.now at }
{
    if 0xf5 <= s[at] {
        return 0;
    }
    if s.len() - at < 4 {
        return 0;
    }
    if is_second(s[at], s[at + 1]) & is_continuation(s[at + 2]) & is_continuation(s[at + 3]) {
        4
    } else {
        0
    }
}

// The length of the well-formed sequence at a place; 0 if none starts there, and no Option: the laws of a walk add and compare lengths.
pub fn sequence_at(s: &[u8], at: usize) -> usize
    ensures { result ≡ sequence_at s.now at }
{
    if s.len() <= at {
        return 0;
    }
    let b = s[at];
    if b < 0x80 {
        return 1;
    }
    if b < 0xe0 {
        return two_at(s, at);
    }
    if b < 0xf0 {
        return three_at(s, at);
    }
    four_at(s, at)
}
