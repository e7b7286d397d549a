// Kinds: what a property's kind says of its values.
ghost use Rattle.std.specs.Prelude.{◌≡◌};
ghost use Rattle.record.specs.Kind.{scalar_kind, kind_of, same_row};

// The families of types; integers and reals come in widths.
#[derive(Clone, Copy, PartialEq, Eq)]
pub enum Family {
    Boolean,
    Integer,
    Real,
    Text,
    Char16,
    Octets,
    Datetime,
    Reference,
}

// A value's type: its family, the bytes of its body where their number is fixed (else 0), and whether an integer has a sign.
#[derive(Clone, Copy, PartialEq, Eq)]
pub struct ValueType {
    pub family: Family,
    pub width: usize,
    pub signed: bool,
}

// What a kind says: a scalar, an array whose elements' records have the kind `element`, or nothing.
#[derive(Clone, Copy, PartialEq, Eq)]
pub enum Kind {
    Unknown,
    Scalar(ValueType),
    Array { element: usize, of: ValueType },
}

fn scalar(family: Family, width: usize, signed: bool) -> Kind
    ensures { result ≡ Rattle.record.specs.Kind.scalar_of family width signed }
{
    Kind::Scalar(ValueType {
        family,
        width,
        signed,
    })
}

// The one function that knows the types' numbers.
fn scalar_kind(number: usize) -> Kind
    ensures { result ≡ scalar_kind number }
{
    match number {
        1 => scalar(Family::Boolean, 1, false),
        4 => scalar(Family::Real, 4, false),
        5 => scalar(Family::Real, 8, false),
        6 => scalar(Family::Text, 0, false),
        7 => scalar(Family::Char16, 2, false),
        8 => scalar(Family::Octets, 0, false),
        9 => scalar(Family::Datetime, 25, false),
        10 => scalar(Family::Reference, 0, false),
        0x0011 => scalar(Family::Integer, 1, false),
        0x0012 => scalar(Family::Integer, 2, false),
        0x0014 => scalar(Family::Integer, 4, false),
        0x0018 => scalar(Family::Integer, 8, false),
        0x0021 => scalar(Family::Integer, 1, true),
        0x0022 => scalar(Family::Integer, 2, true),
        0x0024 => scalar(Family::Integer, 4, true),
        0x0028 => scalar(Family::Integer, 8, true),
        _ => Kind::Unknown,
    }
}

// What a property's kind says: it is the type, plus 0x0100 for an array.
#[tactic(auto, using(crate::proofs::Numbers::kind_none, crate::proofs::Numbers::kind_scalar, crate::proofs::Numbers::kind_array, crate::proofs::Numbers::kind_unknown))]
pub fn kind_of(number: usize) -> Kind
    ensures { result ≡ kind_of number }
{
    match (number / 0x0100, scalar_kind(number % 0x0100)) {
        (0, says) => says,
        (1, Kind::Scalar(of)) => Kind::Array {
            element: number % 0x0100,
            of,
        },
        _ => Kind::Unknown,
    }
}

// Whether two families stand in one row: text and char16 do, and any other stands in one of its own.
pub fn same_row(a: Family, b: Family) -> bool
    ensures { result ≡ same_row a b }
{
    a == b
        || matches!(
            (a, b),
            (Family::Text, Family::Char16) | (Family::Char16, Family::Text)
        )
}
