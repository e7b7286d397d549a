// The value in a record of an instance or of an array, by its type. Offsets are into the slice that is read.
ghost use Rattle.std.specs.Prelude.{◌≡◌};
ghost use Rattle.std.proofs.Math.Option.{some};
ghost use Rattle.base.specs.Part.{part};
ghost use Rattle.record.specs.Record.{records};
ghost use Rattle.instance.specs.Value.{whole_in, real_in, family_value, element_in};
ghost use Rattle.instance.specs.Conforms.{count};
ghost use Rattle.value.specs.Item.{sequence_of, item_value};
ghost use Rattle.value.specs.Read.{value_in_record};

use crate::item::{Item, Sequence, Sort};
use crate::unit::Form;
use base::bytes::{byte_at, piece};
use base::integer::{signed_in, unsigned_in};
use datetime::read::read_datetime;
use real::bits::{real32_in, real64_in};
use record::kind::{Family, ValueType};
use record::read::{RecordAt, record_at};
use record::walk::records_from;

fn read_whole(signed: bool, s: &[u8]) -> i128
    ensures { result ≡ whole_in signed s.now }
{
    if signed {
        return signed_in(s);
    }
    i128::from(unsigned_in(s))
}

fn read_real(width: usize, s: &[u8]) -> f64
    ensures { result ≡ real_in width s.now }
{
    if width == 4 {
        return real32_in(s);
    }
    real64_in(s)
}

fn sequence_of(sort: Sort, form: Form, start: usize, length: usize) -> Item
    ensures { result ≡ sequence_of sort form start length }
{
    Item::Sequence(Sequence {
        sort,
        form,
        start,
        length,
        at: 0,
    })
}

fn read_family(
    s: &[u8],
    family: Family,
    width: usize,
    signed: bool,
    start: usize,
    length: usize,
) -> Item
    ensures { item_value s.now result ≡ some (family_value family width signed (part s.now start length)) }
{
    let body = piece(s, start, length);
    match family {
        Family::Boolean => Item::Truth(byte_at(body, 0) == 1),
        Family::Integer => Item::Integer(read_whole(signed, body)),
        Family::Real => Item::Real(read_real(width, body)),
        Family::Text => sequence_of(Sort::Text, Form::Utf8, start, length),
        Family::Char16 => sequence_of(Sort::Text, Form::Char16, start, length),
        Family::Octets => sequence_of(Sort::Octets, Form::Bytes, start, length),
        Family::Datetime => Item::Datetime(read_datetime(body)),
        Family::Reference => sequence_of(Sort::Reference, Form::Bytes, start, length),
    }
}

// The value of a type in a record of this kind whose body is the `length` bytes at `start`; kind 0 is NULL.
#[tactic(auto, using(crate::proofs::Reading::item_null, crate::proofs::Reading::item_some))]
pub fn read_item(s: &[u8], of: ValueType, kind: usize, start: usize, length: usize) -> Item
    ensures { item_value s.now result ≡ element_in of kind (part s.now start length) }
{
    if kind == 0 {
        return Item::Null;
    }
    read_family(s, of.family, of.width, of.signed, start, length)
}

// The value of a type in the record at a place; NULL where no whole record is there.
#[tactic(auto, using(crate::proofs::Reading::record_value, crate::proofs::Reading::record_missing))]
pub fn item_at(i: &[u8], place: usize, of: ValueType) -> Item
    ensures { item_value i.now result ≡ value_in_record of i.now place }
{
    match record_at(i, place) {
        RecordAt::Whole {
            kind,
            start,
            length,
            ..
        } => read_item(i, of, kind, start, length),
        RecordAt::Broken | RecordAt::End => Item::Null,
    }
}

// How many elements an array's body has.
#[tactic(auto, unfolding(instance::specs::Conforms::count))]
pub fn count_elements(s: &[u8]) -> usize
    ensures { result ≡ count (records s.now 0) }
{
    let mut n: usize = 0;
    for record in records_from(s, 0) {
        match record {
            Ok(_) => n += 1,
            Err(_) => return n,
        }
    }
    n
}
