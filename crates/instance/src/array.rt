// The rules of a record of a property or an element. Numbers are told by their length before `value_fits` is called: they are most of what instances hold.
ghost use Rattle.std.specs.Prelude.{◌≡◌};
ghost use Rattle.instance.specs.Body.{value_fits};
ghost use Rattle.instance.specs.Fault.{is_null, slot_fits, array_fits, body_fits, record_fits};

use crate::body::{is_numeric, value_fits};
use record::kind::{Kind, ValueType, kind_of};
use record::walk::records_from;

pub fn is_null(kind: usize, body: &[u8]) -> bool
    ensures { result ≡ is_null kind body.now }
{
    (kind == 0) & (body.len() == 0)
}

// The same as `value_fits`, numbers first.
#[tactic(auto, using(crate::proofs::Laws::numeric_fits))]
#[inline(always)]
fn scalar_fits(body: &[u8], of: ValueType) -> bool
    ensures { result ≡ value_fits of body.now }
{
    if is_numeric(of.family) {
        return body.len() == of.width;
    }
    value_fits(body, of)
}

// Whether a record with this kind and body may be an element whose kind is `element`.
fn element_fits(body: &[u8], element: usize, of: ValueType, kind: usize) -> bool
    ensures { result ≡ slot_fits element kind body.now (value_fits of body.now) }
{
    is_null(kind, body) || kind == element && scalar_fits(body, of)
}

// Whether the bytes are 0 to 256 records, each NULL or an element.
#[tactic(auto, using(crate::proofs::Laws::elements_broken, crate::proofs::Laws::elements_end, crate::proofs::Laws::elements_many, crate::proofs::Laws::elements_bad, crate::proofs::Laws::elements_next))]
fn array_fits(s: &[u8], element: usize, of: ValueType) -> bool
    ensures { result ≡ array_fits element of s.now }
{
    for (count, record) in records_from(s, 0).enumerate() {
        let Ok(record) = record else {
            return false;
        };
        if 256 <= count {
            return false;
        }
        if !element_fits(record.body_in(s), element, of, record.kind) {
            return false;
        }
    }
    true
}

fn body_fits(body: &[u8], kind: Kind) -> bool
    ensures { result ≡ body_fits kind body.now }
{
    match kind {
        Kind::Unknown => false,
        Kind::Scalar(of) => scalar_fits(body, of),
        Kind::Array { element, of } => array_fits(body, element, of),
    }
}

// Whether a record with this kind and body may be that of a property whose kind is `property`.
pub fn record_fits(body: &[u8], property: usize, kind: usize) -> bool
    ensures { result ≡ record_fits property kind body.now }
{
    is_null(kind, body) || kind == property && body_fits(body, kind_of(property))
}
