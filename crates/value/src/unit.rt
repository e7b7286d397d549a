// Text, octets and references, unit by unit: a text's characters, or bytes.
ghost use Rattle.std.specs.Prelude.{◌≡◌, ◌+◌, ◌-◌, ◌≤◌, ◌<◌, length, get_or};
ghost use Rattle.encoding.specs.Scalar.{two_bytes, three_bytes, four_bytes, encode};
ghost use Rattle.value.specs.Unit.{units_from, units, Steps, StaysIn};

use base::digit::digit_of;
use encoding::scalar::scalar_of;
use encoding::sequence::sequence_at;
use record::read::number_at;
use string_literal::{InString, char_in_string};

// How the units stand in a slice: bytes as they are, the characters of UTF-8, the one character of a char16, bytes as pairs of hex digits, the characters of a
// string literal from the place after its quote on, and the UTF-8 of these, of which the first bytes of the first character are skipped.
#[derive(Clone, Copy)]
pub enum Form {
    Bytes,
    Utf8,
    Char16,
    Hex,
    Quoted,
    Encoded(usize),
}

// The units of a slice from a place on. What takes and gives these in the loop over two texts is inlined, so that they stay in registers.
#[derive(Clone, Copy)]
pub struct Units<'a> {
    pub form: Form,
    pub bytes: &'a [u8],
    pub at: usize,
}

impl<'a> Units<'a> {
    // The first unit, and those after it; none where there are no more.
    #[inline(always)]
    pub fn next(self) -> Option<(u64, Units<'a>)>
        ensures steps { Steps (units self.entry) result }
        ensures stays { StaysIn self.entry.bytes.now result }
    {
        let Units { form, bytes, at } = self;
        match form {
            Form::Bytes => next_byte(bytes, at),
            Form::Utf8 => next_character(bytes, at),
            Form::Char16 => next_char16(bytes, at),
            Form::Hex => next_pair(bytes, at),
            Form::Quoted => next_quoted(bytes, at),
            Form::Encoded(skipped) => next_encoded(bytes, at, skipped),
        }
    }

    // The same slice and form from `n` bytes further on.
    #[inline(always)]
    pub fn after(self, n: usize) -> Units<'a>
        requires { n ≤ length self.bytes.now - self.at }
        ensures moved { units result ≡ units_from self.entry.form self.entry.bytes.now (self.entry.at + n) }
        ensures stays { (result.form ≡ self.entry.form) × (result.bytes.now ≡ self.entry.bytes.now) × (result.at ≡ self.entry.at + n) }
    {
        Units {
            at: self.at + n,
            ..self
        }
    }
}

#[tactic(auto, using(crate::proofs::Laws::byte_end, crate::proofs::Laws::byte_next))]
#[inline(always)]
fn next_byte<'a>(bytes: &'a [u8], at: usize) -> Option<(u64, Units<'a>)>
    ensures steps { Steps (units_from Form.Bytes bytes.now at) result }
    ensures stays { StaysIn bytes.now result }
{
    if bytes.len() <= at {
        return None;
    }
    let form = Form::Bytes;
    let rest = Units {
        form,
        bytes,
        at: at + 1,
    };
    Some((u64::from(bytes[at]), rest))
}

#[inline(always)]
fn next_character<'a>(bytes: &'a [u8], at: usize) -> Option<(u64, Units<'a>)>
    ensures steps { Steps (units_from Form.Utf8 bytes.now at) result }
    ensures stays { StaysIn bytes.now result }
{
    let n = sequence_at(bytes, at);
    if n == 0 {
        return None;
    }
    let form = Form::Utf8;
    let rest = Units {
        form,
        bytes,
        at: at + n,
    };
    Some((u64::from(scalar_of(&bytes[at..at + n])), rest))
}

#[tactic(auto, using(crate::proofs::Laws::char16_end, crate::proofs::Laws::char16_next))]
fn next_char16<'a>(bytes: &'a [u8], at: usize) -> Option<(u64, Units<'a>)>
    ensures steps { Steps (units_from Form.Char16 bytes.now at) result }
    ensures stays { StaysIn bytes.now result }
{
    if at != 0 {
        return None;
    }
    let form = Form::Char16;
    let rest = Units { form, bytes, at: 1 };
    Some((number_at(bytes, 0) as u64, rest))
}

#[tactic(auto, using(crate::proofs::Laws::pair_end, crate::proofs::Laws::pair_half, crate::proofs::Laws::pair_next))]
fn next_pair<'a>(bytes: &'a [u8], at: usize) -> Option<(u64, Units<'a>)>
    ensures steps { Steps (units_from Form.Hex bytes.now at) result }
    ensures stays { StaysIn bytes.now result }
{
    if bytes.len() <= at {
        return None;
    }
    if bytes.len() - at < 2 {
        return None;
    }
    let form = Form::Hex;
    let rest = Units {
        form,
        bytes,
        at: at + 2,
    };
    Some((digit_of(bytes[at]) * 16 + digit_of(bytes[at + 1]), rest))
}

#[inline(always)]
fn next_quoted<'a>(bytes: &'a [u8], at: usize) -> Option<(u64, Units<'a>)>
    ensures steps { Steps (units_from Form.Quoted bytes.now at) result }
    ensures stays { StaysIn bytes.now result }
{
    let InString::Character(c, at) = char_in_string(bytes, at) else {
        return None;
    };
    let form = Form::Quoted;
    Some((u64::from(c), Units { form, bytes, at }))
}

// The byte `k` of a sequence of two, three and four (the Unicode Standard, Table 3-6).
fn byte_of_two(v: u64, k: usize) -> u64
    requires { (v < 0x110000) × (k < 2) }
    ensures { result ≡ get_or (two_bytes v) k 0 }
{
    if k == 0 {
        return 0xc0 + v / 64;
    }
    0x80 + v % 64
}

fn byte_of_three(v: u64, k: usize) -> u64
    requires { (v < 0x110000) × (k < 3) }
    ensures { result ≡ get_or (three_bytes v) k 0 }
{
    if k == 0 {
        return 0xe0 + v / 4096;
    }
    if k == 1 {
        return 0x80 + v / 64 % 64;
    }
    0x80 + v % 64
}

fn byte_of_four(v: u64, k: usize) -> u64
    requires { (v < 0x110000) × (k < 4) }
    ensures { result ≡ get_or (four_bytes v) k 0 }
{
    if k == 0 {
        return 0xf0 + v / 262144;
    }
    if k == 1 {
        return 0x80 + v / 4096 % 64;
    }
    if k == 2 {
        return 0x80 + v / 64 % 64;
    }
    0x80 + v % 64
}

#[tactic(auto, using(crate::proofs::Laws::one_length, crate::proofs::Laws::two_length, crate::proofs::Laws::three_length, crate::proofs::Laws::four_length))]
fn encoded_length(v: u64) -> usize
    ensures { (result ≡ length (encode v)) × (result ≤ 4) }
{
    if v < 0x80 {
        return 1;
    }
    if v < 0x800 {
        return 2;
    }
    if v < 0x10000 {
        return 3;
    }
    4
}

// The byte `k` of the UTF-8 of a scalar value.
fn encoded_byte(v: u64, k: usize) -> u64
    requires { (v < 0x110000) × (k < length (encode v)) }
    ensures { result ≡ get_or (encode v) k 0 }
{
    if v < 0x80 {
        return v;
    }
    if v < 0x800 {
        return byte_of_two(v, k);
    }
    if v < 0x10000 {
        return byte_of_three(v, k);
    }
    byte_of_four(v, k)
}

fn next_encoded<'a>(bytes: &'a [u8], at: usize, skipped: usize) -> Option<(u64, Units<'a>)>
    ensures steps { Steps (units_from (Form.Encoded skipped) bytes.now at) result }
    ensures stays { StaysIn bytes.now result }
{
    let InString::Character(c, next) = char_in_string(bytes, at) else {
        return None;
    };
    let v = u64::from(c);
    let n = encoded_length(v);
    if n <= skipped {
        return None;
    }
    let byte = encoded_byte(v, skipped);
    if skipped + 1 < n {
        let form = Form::Encoded(skipped + 1);
        return Some((byte, Units { form, bytes, at }));
    }
    let form = Form::Encoded(0);
    let rest = Units {
        form,
        bytes,
        at: next,
    };
    Some((byte, rest))
}
