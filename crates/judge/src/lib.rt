// One comparison, judged over an instance: its failure, or its truth and steps. It reads its parts where they stand, in the query, the table and the instance.
#![tactic(auto)]

pub mod fault;
pub mod left;
pub mod meet;
pub mod property;
pub mod right;

ghost use Rattle.std.specs.Prelude.{◌≡◌};
ghost use Rattle.record.specs.Kind.{kind_of};
ghost use Rattle.instance.specs.Value.{value_at};
ghost use Rattle.judge.specs.Meaning as meaning;
ghost use Rattle.judge.specs.Meaning.{meant_by};
ghost use Rattle.judge.specs.Environment.{entry_noted};
ghost use Rattle.judge.specs.Answers.{judged, left_seen, right_seen};

use crate::left::{Left, left_of};
use crate::meet::{meet_body, meet_elements, meet_one, meet_pattern};
use crate::property::right_of;
use crate::right::Right;
use instance::notes::place_noted;
use operand::cause::{Cause, ComparisonRefusal};
use operand::name::find_named;
use record::kind::ValueType;
use short_circuit::Told;
use syntax::comparison::Comparison;

// Both sides of a comparison, over a left property of a type.
fn judge_sides<'a>(
    c: Comparison,
    q: &'a [u8],
    i: &'a [u8],
    of: ValueType,
    l: Left,
    r: Right,
) -> Result<Told, ComparisonRefusal>
    ensures { result ≡ judged (meaning.meet c.left c.operation of.family (left_seen of q.now i.now l) (right_seen of.family q.now i.now r)) }
{
    let a = c.left;
    let o = c.operation;
    match r {
        Right::Missing(place) => Err(Cause::Name.at(place)),
        Right::Unindexable => Err(Cause::Shape.at(a.start)),
        Right::One(null, y) => meet_one(a, o, q, i, of, l, null, y),
        Right::Elements(from, count) => meet_elements(a, o, q, i, of, l, from, count),
        Right::Many(same, with, y) => meet_body(a, o, q, i, of, l, same, with, y),
        Right::Pattern(t) => meet_pattern(a, o, q, i, of, l, t),
    }
}

// A comparison whose left property has this kind and starts at a place of the instance.
fn judge_kind<'a>(
    q: &'a [u8],
    t: &'a [u8],
    i: &'a [u8],
    notes: &[usize],
    c: Comparison,
    kind: usize,
    place: usize,
) -> Result<Told, ComparisonRefusal>
    ensures { result ≡ judged (meant_by q.now (entry_noted q.now t.now i.now notes.now) c (kind_of kind) (value_at kind i.now place)) }
{
    let a = c.left;
    let quantifier = a.quantifier;
    let index = a.index;
    let path = a.path;
    let first = path.first;
    let right = c.right;
    match left_of(q, i, quantifier, index, kind, place) {
        None => Err(Cause::Name.at(first.start)),
        Some((of, l)) => {
            let family = of.family;
            judge_sides(c, q, i, of, l, right_of(q, t, i, notes, family, right))
        }
    }
}

// The comparison `c` of the query, over the table and an instance in which each property's record is read at the place noted for it, whatever is noted.
pub fn judge<'a>(
    q: &'a [u8],
    t: &'a [u8],
    i: &'a [u8],
    notes: &[usize],
    c: Comparison,
) -> Result<Told, ComparisonRefusal>
    ensures { result ≡ judged (meaning.meaning q.now (entry_noted q.now t.now i.now notes.now) c) }
{
    let a = c.left;
    let path = a.path;
    let first = path.first;
    let Some(property) = find_named(q, t, path) else {
        return Err(Cause::Name.at(first.start));
    };
    judge_kind(
        q,
        t,
        i,
        notes,
        c,
        property.kind,
        place_noted(notes, property.number),
    )
}
