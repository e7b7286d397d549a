// A table's class and properties, by name. Total: what a malformed table lacks is absent.
ghost use Rattle.std.specs.Prelude.{◌≡◌};
ghost use Rattle.record.specs.Name.{same_name};
ghost use Rattle.table.specs.Properties.{class_name, first_property, find_property};

use record::read::{RecordAt, record_at};
use record::walk::records_from;

// A property's number, counted from 0, and its kind.
#[derive(Clone, Copy, PartialEq, Eq)]
pub struct Property {
    pub number: usize,
    pub kind: usize,
}

// The class name.
pub fn class_name(t: &[u8]) -> &[u8]
    ensures { result.now ≡ class_name t.now }
{
    match record_at(t, 0) {
        RecordAt::Whole { start, length, .. } => base::bytes::piece(t, start, length),
        _ => &t[..0],
    }
}

// Whether a name is that of the class.
pub fn is_class<'a>(t: &'a [u8], name: &'a [u8]) -> bool
    ensures { result ≡ same_name (class_name t.now) name.now }
{
    record::name::same_name(class_name(t), name)
}

// Where the first property's record starts.
pub fn first_property(t: &[u8]) -> usize
    ensures { result ≡ first_property t.now }
{
    match record_at(t, 0) {
        RecordAt::Whole { next, .. } => next,
        _ => t.len(),
    }
}

// The property of a name.
pub fn find_property<'a>(t: &'a [u8], name: &'a [u8]) -> Option<Property>
    ensures { result ≡ find_property t.now name.now }
{
    for (number, record) in records_from(t, first_property(t)).enumerate() {
        let record = record.ok()?;
        if record::name::same_name(record.body_in(t), name) {
            return Some(Property {
                number,
                kind: record.kind,
            });
        }
    }
    None
}
