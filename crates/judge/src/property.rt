// A property on the right of a comparison, and the whole right side.
ghost use Rattle.std.specs.Prelude.{◌≡◌};
ghost use Rattle.record.specs.Kind.{kind_of};
ghost use Rattle.instance.specs.Value.{value_at};
ghost use Rattle.judge.specs.Meaning.{right_kind, right_property, right_of};
ghost use Rattle.judge.specs.Environment.{entry_noted};
ghost use Rattle.judge.specs.Answers.{right_seen, ScalarRight, ArrayRight};

use crate::left::read_indexed;
use crate::right::{Right, literal_at, value_of_row};
use instance::notes::place_noted;
use operand::literal_read::is_null_literal;
use operand::name::find_named;
use place::{Part, Source, Spot, body_at};
use record::kind::{Family, Kind, ValueType, kind_of, same_row};
use syntax::path::Path;
use syntax::right_side::RightSide;
use token::Token;

// A scalar, in the record at a place.
fn right_scalar<'a>(
    q: &'a [u8],
    i: &'a [u8],
    same: bool,
    index: Option<Token>,
    with: ValueType,
    place: usize,
) -> Right
    ensures { ScalarRight q.now i.now same index with place result }
{
    match index {
        None => {
            let x = Ok(Spot {
                source: Source::Instance,
                place,
            });
            Right::One(false, value_of_row(same, q, i, with, x))
        }
        Some(_) => Right::Unindexable,
    }
}

fn right_array<'a>(
    q: &'a [u8],
    i: &'a [u8],
    same: bool,
    index: Option<Token>,
    with: ValueType,
    body: Option<Part>,
) -> Right
    ensures { ArrayRight q.now i.now same index with body result }
{
    match index {
        None => Right::Many(same, with, body),
        Some(t) => Right::One(
            false,
            value_of_row(same, q, i, with, read_indexed(q, i, t, body)),
        ),
    }
}

// A property of a kind whose record starts at a place, beside one of a family; its name starts at `name`.
fn right_kind<'a>(
    q: &'a [u8],
    i: &'a [u8],
    family: Family,
    name: usize,
    index: Option<Token>,
    kind: usize,
    place: usize,
) -> Right
    ensures { right_seen family q.now i.now result ≡ right_kind family q.now name index (kind_of kind) (value_at kind i.now place) }
{
    match kind_of(kind) {
        Kind::Unknown => Right::Missing(name),
        Kind::Scalar(with) => {
            let other = with.family;
            right_scalar(q, i, same_row(family, other), index, with, place)
        }
        Kind::Array {
            element: _,
            of: with,
        } => {
            let other = with.family;
            right_array(
                q,
                i,
                same_row(family, other),
                index,
                with,
                body_at(i, place),
            )
        }
    }
}

// The property of a path.
fn right_property<'a>(
    q: &'a [u8],
    t: &'a [u8],
    i: &'a [u8],
    notes: &[usize],
    family: Family,
    p: Path,
    index: Option<Token>,
) -> Right
    ensures { right_seen family q.now i.now result ≡ right_property family q.now p.first.start index (entry_noted q.now t.now i.now notes.now p) }
{
    let first = p.first;
    let Some(property) = find_named(q, t, p) else {
        return Right::Missing(first.start);
    };
    right_kind(
        q,
        i,
        family,
        first.start,
        index,
        property.kind,
        place_noted(notes, property.number),
    )
}

// The right side beside a property of a family.
pub fn right_of<'a>(
    q: &'a [u8],
    t: &'a [u8],
    i: &'a [u8],
    notes: &[usize],
    family: Family,
    right: RightSide,
) -> Right
    ensures { right_seen family q.now i.now result ≡ right_of family q.now (entry_noted q.now t.now i.now notes.now) right }
{
    match right {
        RightSide::Literal(x) => Right::One(is_null_literal(x), literal_at(family, q, i, x)),
        RightSide::Elements { start, count, .. } => Right::Elements(start, count),
        RightSide::Property(p, index) => right_property(q, t, i, notes, family, p, index),
        RightSide::Pattern(x) => Right::Pattern(x),
    }
}
