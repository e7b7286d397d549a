// The faults of a table: numbers 2 and 3, with their places.
ghost use Rattle.std.specs.Prelude.{◌≡◌, ◌≤◌, length, []};
ghost use Rattle.record.specs.Record.{records};
ghost use Rattle.record.specs.Reserved.{among};
ghost use Rattle.table.specs.Table.{number_of, malformed, name_twice, is_known, is_class, is_property, properties, table_reading};
ghost use Rattle.table.specs.Properties.{names_before};
ghost use Rattle.table.specs.Hash.{hash_of, hashes_of};

use crate::hash::{has_hash, hash_of};
use record::kind::Kind;
use record::read::{RecordAt, record_at};
use record::walk::records_from;

#[derive(Clone, Copy, PartialEq, Eq)]
pub enum TableFault {
    Malformed,
    NameTwice,
}

// A fault and its place.
#[derive(Clone, Copy, PartialEq, Eq)]
pub struct TableRefusal {
    pub cause: TableFault,
    pub place: usize,
}

// The refusal number of a fault.
pub fn number_of(cause: TableFault) -> usize
    ensures { result ≡ number_of cause }
{
    match cause {
        TableFault::Malformed => 2,
        TableFault::NameTwice => 3,
    }
}

fn malformed(place: usize) -> TableRefusal
    ensures { result ≡ malformed place }
{
    TableRefusal {
        cause: TableFault::Malformed,
        place,
    }
}

fn name_twice(place: usize) -> TableRefusal
    ensures { result ≡ name_twice place }
{
    TableRefusal {
        cause: TableFault::NameTwice,
        place,
    }
}

fn is_known(kind: Kind) -> bool
    ensures { result ≡ is_known kind }
{
    !matches!(kind, Kind::Unknown)
}

// Whether a record may be the class.
fn is_class_record(kind: usize, name: &[u8]) -> bool
    ensures { result ≡ is_class kind name.now }
{
    (kind == 0x0200) & record::name::valid_name(name) & !record::name::is_reserved(name)
}

// Whether a record may be a property.
fn is_property_record(kind: usize, name: &[u8]) -> bool
    ensures { result ≡ is_property kind name.now }
{
    is_known(record::kind::kind_of(kind)) & record::name::valid_name(name)
}

// Whether a record from `first` on and before `stop` has the name.
fn name_used(t: &[u8], first: usize, stop: usize, name: &[u8]) -> bool
    ensures { result ≡ among name.now (names_before t.now stop (records t.now first)) }
{
    for record in records_from(t, first) {
        let Ok(record) = record else {
            return false;
        };
        if stop <= record.place {
            return false;
        }
        if record::name::same_name(name, record.body_in(t)) {
            return true;
        }
    }
    false
}

// The same by the hashes of the names before `stop`: most names have one of their own, and no other is looked at.
fn is_used(t: &[u8], first: usize, stop: usize, name: &[u8], hash: u16, hashes: &[u16]) -> bool
    requires { (hash ≡ hash_of name.now) × (hashes.now ≡ hashes_of (names_before t.now stop (records t.now first))) }
    ensures { result ≡ among name.now (names_before t.now stop (records t.now first)) }
{
    has_hash(hash, hashes) && name_used(t, first, stop, name)
}

// How many properties stand from `first` on.
fn read_properties(t: &[u8], first: usize) -> Result<usize, TableRefusal>
    ensures { result ≡ properties t.now [] (records t.now first) }
{
    let mut hashes = [0u16; 128];
    let mut count: usize = 0;
    for record in records_from(t, first) {
        let record = record.map_err(malformed)?;
        if 128 <= count {
            return Err(malformed(record.place));
        }
        let name = record.body_in(t);
        if !is_property_record(record.kind, name) {
            return Err(malformed(record.place));
        }
        let hash = hash_of(name);
        if is_used(t, first, record.place, name, hash, &hashes[..count]) {
            return Err(name_twice(record.place));
        }
        hashes[count] = hash;
        count += 1;
    }
    Ok(count)
}

// The number of a table's properties, or its first fault.
pub fn read_table(t: &[u8]) -> Result<usize, TableRefusal>
    ensures { result ≡ table_reading t.now }
{
    if 8192 < t.len() {
        return Err(malformed(0));
    }
    match record_at(t, 0) {
        RecordAt::Whole {
            kind,
            start,
            length,
            next,
        } => {
            if !is_class_record(kind, base::bytes::piece(t, start, length)) {
                return Err(malformed(0));
            }
            read_properties(t, next)
        }
        RecordAt::Broken => Err(malformed(0)),
        RecordAt::End => Err(malformed(t.len())),
    }
}
