// The rules of a value's body, by its type.
ghost use Rattle.std.specs.Prelude.{◌≡◌};
ghost use Rattle.instance.specs.Body.{boolean_fits, text_fits, char16_fits, datetime_fits, is_numeric, family_fits, value_fits};

use record::kind::{Family, ValueType};

#[tactic(auto, unfolding(crate::specs::Body::boolean_fits))]
fn boolean_fits(s: &[u8]) -> bool
    ensures { result ≡ boolean_fits s.now }
{
    (s.len() == 1) & (base::bytes::byte_at(s, 0) <= 1)
}

#[tactic(auto, unfolding(crate::specs::Body::text_fits))]
fn text_fits(s: &[u8]) -> bool
    ensures { result ≡ text_fits s.now }
{
    encoding::text::check_utf8(s).is_ok()
}

#[tactic(auto, unfolding(crate::specs::Body::char16_fits))]
fn char16_fits(s: &[u8]) -> bool
    ensures { result ≡ char16_fits s.now }
{
    let c = record::read::number_at(s, 0);
    (s.len() == 2) & ((c < 0xd800) | (0xdfff < c))
}

#[tactic(auto, using(crate::proofs::Laws::datetime_fits_law))]
fn datetime_fits(s: &[u8]) -> bool
    ensures { result ≡ datetime_fits s.now }
{
    datetime::read::is_datetime(s)
}

fn family_fits(s: &[u8], family: Family, width: usize) -> bool
    ensures { result ≡ family_fits family width s.now }
{
    match family {
        Family::Boolean => boolean_fits(s),
        Family::Integer | Family::Real => s.len() == width,
        Family::Text | Family::Reference => text_fits(s),
        Family::Char16 => char16_fits(s),
        Family::Octets => true,
        Family::Datetime => datetime_fits(s),
    }
}

// Whether the bytes are a body of the type.
pub fn value_fits(s: &[u8], of: ValueType) -> bool
    ensures { result ≡ value_fits of s.now }
{
    family_fits(s, of.family, of.width)
}

// Whether a body of the family is any bytes of its width.
pub(crate) fn is_numeric(family: Family) -> bool
    ensures { result ≡ is_numeric family }
{
    matches!(family, Family::Integer | Family::Real)
}
