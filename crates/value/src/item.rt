// Values as they are compared.
ghost use Rattle.std.specs.Prelude.{◌≡◌};
ghost use Rattle.value.specs.Item.{is_null_item};

use crate::unit::Form;
use datetime::Datetime;

#[derive(Clone, Copy, PartialEq, Eq)]
pub enum Sort {
    Text,
    Octets,
    Reference,
}

// The units, from the place `at` on, of the part of a slice that has `length` bytes at `start`.
#[derive(Clone, Copy)]
pub struct Sequence {
    pub sort: Sort,
    pub form: Form,
    pub start: usize,
    pub length: usize,
    pub at: usize,
}

#[derive(Clone, Copy)]
pub enum Item {
    Null,
    Truth(bool),
    Integer(i128),
    Real(f64),
    Datetime(Datetime),
    Sequence(Sequence),
}

pub fn is_null(x: Item) -> bool
    ensures { result ≡ is_null_item x }
{
    matches!(x, Item::Null)
}
