// Where the values of a comparison stand: in records, in array bodies, in the query; and NOT, for the forms that take it.
#![tactic(auto)]

pub mod negation;

ghost use Rattle.std.specs.Prelude.{◌≡◌};
ghost use Rattle.base.specs.Part.{part};
ghost use Rattle.instance.specs.Value.{element_in};
ghost use Rattle.value.specs.Compare.{compares};
ghost use Rattle.value.specs.Item.{item_value};
ghost use Rattle.operand.specs.LiteralReading.{read_literal};
ghost use Rattle.place.specs.Place.{source_bytes, spot_value, located_value, body_at, value_read};

use base::bytes::piece;
use base::order::Operator;
use operand::literal_read::read_literal;
use record::kind::{Family, ValueType};
use record::read::{RecordAt, record_at};
use record::walk::Record;
use token::Token;
use value::compare::compare_items;
use value::item::Item;
use value::read::{item_at, read_item};

// A part of an instance: so many bytes from a place on.
#[derive(Clone, Copy)]
pub struct Part {
    pub start: usize,
    pub length: usize,
}

// The query, the instance, or a part of the instance.
#[derive(Clone, Copy)]
pub enum Source {
    Query,
    Instance,
    Part(Part),
}

// A record.
#[derive(Drop)]
pub struct Spot {
    pub source: Source,
    pub place: usize,
}

// A value, over the bytes that it came from.
#[derive(Drop)]
pub struct Located {
    pub source: Source,
    pub item: Item,
}

pub fn bytes_of<'a>(q: &'a [u8], i: &'a [u8], s: Source) -> &'a [u8]
    ensures { result.now ≡ source_bytes q.now i.now s }
{
    match s {
        Source::Query => q,
        Source::Instance => i,
        Source::Part(p) => piece(i, p.start, p.length),
    }
}

// Whether the operator holds of the value in a record and another.
#[tactic(auto, using(crate::proofs::Placing::spot_compared))]
pub fn compare_spot<'a>(
    op: Operator,
    q: &'a [u8],
    i: &'a [u8],
    of: ValueType,
    x: Spot,
    y: Located,
) -> bool
    ensures { result ≡ compares op (spot_value of q.now i.now x) (located_value q.now i.now y) }
{
    let a = bytes_of(q, i, x.source);
    let b = bytes_of(q, i, y.source);
    compare_items(op, a, item_at(a, x.place, of), b, y.item)
}

// Whether the operator holds of the value in a record of `a` and a value of `b`.
#[tactic(auto, using(crate::proofs::Placing::compared_in))]
pub fn holds_in<'a>(
    op: Operator,
    a: &'a [u8],
    of: ValueType,
    x: Record,
    b: &'a [u8],
    y: Item,
) -> bool
    ensures { result ≡ compares op (element_in of x.kind (part a.now x.start x.length)) (item_value b.now y) }
{
    compare_items(op, a, read_item(a, of, x.kind, x.start, x.length), b, y)
}

// The part that has the records of the array in the record at a place; None for NULL.
#[tactic(auto, using(crate::proofs::Placing::body_null, crate::proofs::Placing::body_stands, crate::proofs::Placing::body_absent))]
pub fn body_at(i: &[u8], place: usize) -> Option<Part>
    ensures { result ≡ body_at i.now place }
{
    let RecordAt::Whole {
        kind,
        start,
        length,
        ..
    } = record_at(i, place)
    else {
        return None;
    };
    if kind == 0 {
        return None;
    }
    Some(Part { start, length })
}

// The value of a literal; NULL where it can't be read.
#[tactic(auto, using(crate::proofs::Placing::value_or_null))]
pub fn literal_item_or_null(family: Family, q: &[u8], t: Token) -> Item
    ensures { item_value q.now result ≡ value_read (read_literal family q.now t) }
{
    read_literal(family, q, t).unwrap_or(Item::Null)
}
