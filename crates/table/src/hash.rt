// A hash of each name: a name whose hash no other has is new.
ghost use Rattle.std.specs.Prelude.{◌≡◌};
ghost use Rattle.table.specs.Hash.{hash_of, has_hash};

use record::name::lower_of;

// Of the name with its capital letters made small, in 16 bits, so that eight are compared at once.
pub fn hash_of(name: &[u8]) -> u16
    ensures { result ≡ hash_of name.now }
{
    let mut h: u32 = 0;
    for byte in name {
        h = (h * 31 + u32::from(lower_of(*byte))) % 65536;
    }
    h as u16
}

// Whether a hash is among others. All of these are looked at: where none ends the loop early, the compiler compares several at once.
pub fn has_hash(hash: u16, hashes: &[u16]) -> bool
    ensures { result ≡ has_hash hash hashes.now }
{
    let mut found = false;
    for other in hashes {
        found |= *other == hash;
    }
    found
}
