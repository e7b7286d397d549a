// Names, and the words that FQL reserves.
ghost use Rattle.std.specs.Prelude.{◌≡◌, eqb};
ghost use Rattle.std.specs.List.{list_all};
ghost use Rattle.record.specs.Name.{letter, name_byte, valid_name, lower, same_name};
ghost use Rattle.record.specs.Reserved.{is_reserved};

// A letter or `_`.
#[tactic(auto, using(crate::proofs::Laws::letter_law))]
pub fn is_letter(b: u8) -> bool
    ensures { result ≡ letter b }
{
    b.is_ascii_alphabetic() | (b == b'_')
}

// A letter, a digit or `_`.
#[tactic(auto, using(crate::proofs::Laws::name_byte_law))]
pub fn is_name_byte(b: u8) -> bool
    ensures { result ≡ name_byte b }
{
    is_letter(b) | b.is_ascii_digit()
}

// Whether every byte is a letter, a digit or `_`.
fn all_name_bytes(s: &[u8]) -> bool
    ensures { result ≡ list_all name_byte s.now }
{
    s.iter().all(|b| is_name_byte(*b))
}

#[tactic(auto, using(crate::proofs::Laws::name_first, crate::proofs::Laws::name_not, crate::proofs::Laws::name_empty, crate::proofs::Laws::name_long))]
pub fn valid_name(s: &[u8]) -> bool
    ensures { result ≡ valid_name s.now }
{
    match s.len() {
        1..=64 => is_letter(s[0]) && all_name_bytes(s),
        _ => false,
    }
}

// The byte with a capital letter made small.
#[tactic(auto, using(crate::proofs::Laws::lower_law))]
pub fn lower_of(b: u8) -> u8
    ensures { result ≡ lower b }
{
    b.to_ascii_lowercase()
}

// Whether two bytes are the same, case ignored; most are the same as they stand.
fn same_byte(x: u8, y: u8) -> bool
    ensures { result ≡ eqb (lower x) (lower y) }
{
    x == y || lower_of(x) == lower_of(y)
}

// Whether two names are the same, case ignored. The last bytes come first: names of one length are mostly alike at their start.
#[tactic(auto, using(crate::proofs::Laws::same_lengths, crate::proofs::Laws::same_not, crate::proofs::Laws::same_next, crate::proofs::Laws::same_end))]
pub fn same_name(a: &[u8], b: &[u8]) -> bool
    ensures { result ≡ same_name a.now b.now }
{
    if a.len() != b.len() {
        return false;
    }
    for i in (0..a.len()).rev() {
        if !same_byte(a[i], b[i]) {
            return false;
        }
    }
    true
}

// Whether a word is reserved, in any case of its letters.
pub fn is_reserved(s: &[u8]) -> bool
    ensures { result ≡ is_reserved s.now }
{
    same_name(s, b"AND")
        | same_name(s, b"ANY")
        | same_name(s, b"EVERY")
        | same_name(s, b"FALSE")
        | same_name(s, b"LIKE")
        | same_name(s, b"NOT")
        | same_name(s, b"NULL")
        | same_name(s, b"OR")
        | same_name(s, b"TRUE")
}
