// String literals of a query, one character after the other, unescaped.
#![tactic(auto)]

ghost use Rattle.std.specs.Prelude.{◌≡◌, ◌≤◌, length};
ghost use Rattle.scan.specs.Ends.{Ends};
ghost use Rattle.string_literal.specs.Char.{unicode_char, raw_at, hex_run, unicode_escape, escape_at, char_at};
ghost use Rattle.string_literal.specs.Text.{text_at, characters_of, end_or, string_literal, filled, Holds, WithinChar};

use base::bytes::byte_at;
use base::digit::read_value;
use encoding::scalar::{is_scalar_value, scalar_of};
use encoding::sequence::sequence_at;
use scan::{Class, run_end};

// What stands at a place inside a string literal: a character and where the next one starts, the closing quote, or neither.
#[derive(Drop)]
pub enum InString {
    Character(u32, usize),
    Close,
    Bad,
}

#[tactic(auto, unfolding(crate::specs::Char::unicode_char, base::specs::Range::within))]
pub fn is_unicode_char(v: u32) -> bool
    ensures { result ≡ unicode_char v }
{
    matches!(v, 0x20..=0xd7ff) | matches!(v, 0xe000..=0xfffd) | matches!(v, 0x10000..=0x10ffff)
}

// A byte of ASCII from the blank on is a character; other characters are decoded.
fn raw_at(q: &[u8], at: usize) -> InString
    ensures { result ≡ raw_at q.now at }
{
    let b = byte_at(q, at);
    if (b' ' <= b) & (b < 0x80) {
        return InString::Character(u32::from(b), at + 1);
    }
    let n = sequence_at(q, at);
    if n == 0 {
        return InString::Bad;
    }
    let v = scalar_of(&q[at..at + n]);
    if is_unicode_char(v) {
        return InString::Character(v, at + n);
    }
    InString::Bad
}

// 01: "`\u` takes the longest run of 4 to 6 hex digits".
const LONGEST_RUN: usize = 6;

#[tactic(auto, using(crate::proofs::Laws::hex_run_least))]
fn hex_run(q: &[u8], at: usize) -> usize
    ensures { result ≡ hex_run q.now at }
{
    (run_end(Class::Digit(16), q, at) - at).min(LONGEST_RUN)
}

fn unicode_escape(q: &[u8], at: usize) -> InString
    ensures { result ≡ unicode_escape q.now at }
{
    let n = hex_run(q, at);
    if n < 4 {
        return InString::Bad;
    }
    let Some(v) = read_value(16, 0, q, at, n, 0x10ffff) else {
        return InString::Bad;
    };
    let c = v as u32;
    if is_scalar_value(c) {
        return InString::Character(c, at + n);
    }
    InString::Bad
}

#[tactic(auto, unfolding(crate::specs::Char::escape_at, crate::specs::Char::plain_escape))]
fn escape_at(q: &[u8], at: usize) -> InString
    ensures { result ≡ escape_at q.now at }
{
    let v = match byte_at(q, at) {
        b'u' => return unicode_escape(q, at + 1),
        b'\\' => 92,
        b'\'' => 39,
        b'b' => 8,
        b't' => 9,
        b'n' => 10,
        b'f' => 12,
        b'r' => 13,
        _ => return InString::Bad,
    };
    InString::Character(v, at + 1)
}

// What stands at a place inside a string literal.
pub fn char_in_string(q: &[u8], at: usize) -> InString
    ensures { (result ≡ char_at q.now at) × WithinChar (length q.now) at result }
{
    let b = byte_at(q, at);
    if b == b'\'' {
        return InString::Close;
    }
    if b == b'\\' {
        return escape_at(q, at + 1);
    }
    raw_at(q, at)
}

// The end of the literal whose characters start at a place; `none` where it is no token.
fn text_end(q: &[u8], at: usize, none: usize) -> usize
    requires { (none ≤ at) × (at ≤ length q.now) }
    ensures { (result ≡ end_or none (text_at q.now at)) × (none ≤ result) × (result ≤ length q.now) }
{
    let mut i = at;
    while i < q.len() {
        let b = q[i];
        if ((b' ' <= b) & (b < 0x80)) & !((b == b'\'') | (b == b'\\')) {
            i += 1;
        } else {
            match char_in_string(q, i) {
                InString::Character(_, next) => i = next,
                InString::Close => return i + 1,
                InString::Bad => return none,
            }
        }
    }
    none
}

// The end of the string literal at a place; the place itself if there is none.
#[tactic(auto, using(scan::proofs::Ends::reached, crate::proofs::Ends::string_ends), unfolding(crate::specs::Text::string_literal))]
pub fn string_literal(q: &[u8], at: usize) -> usize
    ensures { (result ≡ string_literal q.now at) × Ends (length q.now) at result }
{
    if byte_at(q, at) == b'\'' {
        return text_end(q, at + 1, at);
    }
    at
}

// Puts the characters of the literal whose text starts at a place into a buffer, and gives how many they are; `None` where it is too small for them.
pub fn fill(q: &[u8], at: usize, out: &mut [u32]) -> Option<usize>
    ensures { (result ≡ filled (length out.old) (characters_of (text_at q.now at))) × Holds (characters_of (text_at q.now at)) out.new result }
{
    let mut i = at;
    let mut n = 0;
    while i < q.len() {
        match char_in_string(q, i) {
            InString::Character(v, next) => {
                if out.len() <= n {
                    return None;
                }
                out[n] = v;
                n += 1;
                i = next;
            }
            InString::Close | InString::Bad => return Some(n),
        }
    }
    Some(n)
}
