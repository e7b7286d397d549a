// Both sides of a comparison, by their forms.
ghost use Rattle.std.specs.Prelude.{◌≡◌};
ghost use Rattle.record.specs.Kind.{same_row};
ghost use Rattle.terminal.specs.Terminal.{equality};
ghost use Rattle.std.proofs.Math.Option.{some};
ghost use Rattle.operand.specs.Element.{element_tokens};
ghost use Rattle.operand.specs.PatternLiteral.{pattern_of};
ghost use Rattle.place.specs.Place.{spot_value, located_value, body_value};
ghost use Rattle.predicate.specs.Test as test;
ghost use Rattle.predicate.specs.Test.{performed};
ghost use Rattle.judge.specs.Meaning as meaning;
ghost use Rattle.judge.specs.Meaning.{ordered, suits, operator_of, is_negated, both, elements, not_null, of_row, pattern_by, like_text};
ghost use Rattle.judge.specs.Answers.{judged, spot_read, item_read, left_seen, settled, faulted};

use crate::fault::ItemFault;
use crate::left::Left;
use crate::right::check_elements;
use arrays::{compare_bodies, compare_elements};
use base::order::Operator;
use like::like;
use operand::cause::{Cause, ComparisonRefusal};
use operand::pattern_literal::is_pattern;
use place::{Located, Part, Source, Spot, compare_spot};
use record::kind::{Family, ValueType, same_row};
use search::search;
use short_circuit::Told;
use syntax::left_side::LeftSide;
use syntax::operation::Operation;
use terminal::operator::is_equality;
use token::Token;

fn is_ordered(f: Family) -> bool
    ensures { result ≡ ordered f }
{
    same_row(f, Family::Integer) | (same_row(f, Family::Real) | same_row(f, Family::Datetime))
}

fn is_suitable(op: Operator, f: Family, null: bool) -> bool
    ensures { result ≡ suits op f null }
{
    is_equality(op) | (!null & is_ordered(f))
}

fn operator_of(o: Operation) -> Operator
    ensures { result ≡ operator_of o }
{
    match o {
        Operation::Compare(op) => op,
        Operation::Like => Operator::Equal,
        Operation::NotLike => Operator::Unequal,
    }
}

fn is_negated(o: Operation) -> bool
    ensures { result ≡ is_negated o }
{
    matches!(o, Operation::NotLike)
}

// What is wrong with the value on the right, which comes before the index on the left where the value is of another row.
fn refusal_of(start: usize, x: Result<Spot, usize>, fault: ItemFault) -> ComparisonRefusal
    ensures { result ≡ faulted start x fault }
{
    match fault {
        ItemFault::Unlike => Cause::Row.at(start),
        ItemFault::Faulty(refusal) => match x {
            Ok(_) => refusal,
            Err(place) => Cause::Range.at(place),
        },
    }
}

// The record on the left and the value on the right, if nothing is wrong. The row and the operator, placed at the comparison's start, come before what is wrong with an
// index or a literal itself.
fn settle(
    start: usize,
    allowed: bool,
    x: Result<Spot, usize>,
    y: Result<Located, ItemFault>,
) -> Result<(Spot, Located), ComparisonRefusal>
    ensures { result ≡ settled start allowed x y }
{
    if !allowed {
        return Err(Cause::Row.at(start));
    }
    let value = match y {
        Ok(value) => value,
        Err(fault) => return Err(refusal_of(start, x, fault)),
    };
    match x {
        Ok(spot) => Ok((spot, value)),
        Err(place) => Err(Cause::Range.at(place)),
    }
}

fn tell_values<'a>(
    op: Operator,
    q: &'a [u8],
    i: &'a [u8],
    of: ValueType,
    x: Spot,
    y: Located,
) -> Told
    ensures { result ≡ performed (test.values op (spot_value of q.now i.now x) (located_value q.now i.now y)) }
{
    Told {
        holds: compare_spot(op, q, i, of, x, y),
        steps: 1,
    }
}

// One value beside one value.
fn judge_values<'a>(
    op: Operator,
    start: usize,
    allowed: bool,
    q: &'a [u8],
    i: &'a [u8],
    of: ValueType,
    x: Result<Spot, usize>,
    y: Result<Located, ItemFault>,
) -> Result<Told, ComparisonRefusal>
    ensures { result ≡ judged (both start allowed (spot_read of q.now i.now x) (item_read q.now i.now y) (test.values op)) }
{
    let (spot, value) = settle(start, allowed, x, y)?;
    Ok(tell_values(op, q, i, of, spot, value))
}

// ANY or EVERY element of an array beside one value.
fn judge_search<'a>(
    op: Operator,
    a: LeftSide,
    allowed: bool,
    q: &'a [u8],
    i: &'a [u8],
    of: ValueType,
    any: bool,
    x: Option<Part>,
    y: Result<Located, ItemFault>,
) -> Result<Told, ComparisonRefusal>
    ensures { result ≡ judged (both a.start allowed (meaning.value (body_value of i.now x)) (item_read q.now i.now y) (test.search a.negated any op)) }
{
    // the record on the left plays no part here
    let none = Ok(Spot {
        source: Source::Instance,
        place: 0,
    });
    let (_, value) = settle(a.start, allowed, none, y)?;
    Ok(search(a.negated, any, op, q, i, of, x, value))
}

// A left side beside one value.
pub fn meet_one<'a>(
    a: LeftSide,
    o: Operation,
    q: &'a [u8],
    i: &'a [u8],
    of: ValueType,
    l: Left,
    null: bool,
    y: Result<Located, ItemFault>,
) -> Result<Told, ComparisonRefusal>
    ensures { result ≡ judged (meaning.meet a o of.family (left_seen of q.now i.now l) (meaning.Right.one null (item_read q.now i.now y))) }
{
    let op = operator_of(o);
    let family = of.family;
    let allowed = is_suitable(op, family, null);
    match l {
        Left::One(x) => judge_values(op, a.start, allowed, q, i, of, x, y),
        Left::Each(any, x) => judge_search(op, a, allowed, q, i, of, any, x, y),
        _ => Err(Cause::Shape.at(a.start)),
    }
}

// An array beside an array literal.
fn judge_elements<'a>(
    op: Operator,
    start: usize,
    q: &'a [u8],
    i: &'a [u8],
    of: ValueType,
    x: Option<Part>,
    from: usize,
    count: usize,
) -> Result<Told, ComparisonRefusal>
    ensures { result ≡ judged (both start (equality op) (meaning.value (body_value of i.now x)) (not_null (elements of.family q.now (element_tokens q.now from count))) (test.arrays op)) }
{
    if !is_equality(op) {
        return Err(Cause::Row.at(start));
    }
    let family = of.family;
    match check_elements(family, q, from, count) {
        Ok(()) => Ok(compare_elements(op, q, i, of, x, from, count)),
        Err(fault) => Err(fault.refused_at(start)),
    }
}

// A left side beside an array literal.
pub fn meet_elements<'a>(
    a: LeftSide,
    o: Operation,
    q: &'a [u8],
    i: &'a [u8],
    of: ValueType,
    l: Left,
    from: usize,
    count: usize,
) -> Result<Told, ComparisonRefusal>
    ensures { result ≡ judged (meaning.meet a o of.family (left_seen of q.now i.now l) (meaning.Right.many (not_null (elements of.family q.now (element_tokens q.now from count))))) }
{
    match l {
        Left::Many(x) => judge_elements(operator_of(o), a.start, q, i, of, x, from, count),
        _ => Err(Cause::Shape.at(a.start)),
    }
}

// An array beside an array of the instance, of the same row or not.
fn judge_bodies(
    op: Operator,
    start: usize,
    i: &[u8],
    of: ValueType,
    x: Option<Part>,
    same: bool,
    with: ValueType,
    y: Option<Part>,
) -> Result<Told, ComparisonRefusal>
    ensures { result ≡ judged (both start (equality op) (meaning.value (body_value of i.now x)) (of_row same (meaning.value (body_value with i.now y))) (test.arrays op)) }
{
    if is_equality(op) & same {
        return Ok(compare_bodies(op, i, of, x, with, y));
    }
    Err(Cause::Row.at(start))
}

// A left side beside an array of the instance.
pub fn meet_body<'a>(
    a: LeftSide,
    o: Operation,
    q: &'a [u8],
    i: &'a [u8],
    of: ValueType,
    l: Left,
    same: bool,
    with: ValueType,
    y: Option<Part>,
) -> Result<Told, ComparisonRefusal>
    ensures { result ≡ judged (meaning.meet a o of.family (left_seen of q.now i.now l) (meaning.Right.many (of_row same (meaning.value (body_value with i.now y))))) }
{
    match l {
        Left::Many(x) => judge_bodies(operator_of(o), a.start, i, of, x, same, with, y),
        _ => Err(Cause::Shape.at(a.start)),
    }
}

// A text under a pattern.
fn judge_like<'a>(
    negated: bool,
    start: usize,
    q: &'a [u8],
    i: &'a [u8],
    of: ValueType,
    x: Result<Spot, usize>,
    t: Token,
) -> Result<Told, ComparisonRefusal>
    ensures { result ≡ judged (both start (same_row of.family Family.Text) (spot_read of q.now i.now x) (pattern_by t.start (pattern_of q.now t)) (like_text negated)) }
{
    let family = of.family;
    if !same_row(family, Family::Text) {
        return Err(Cause::Row.at(start));
    }
    let spot = match x {
        Ok(spot) => spot,
        Err(place) => return Err(Cause::Range.at(place)),
    };
    if !is_pattern(q, t) {
        return Err(Cause::Pattern.at(t.start));
    }
    Ok(like(q, i, t, negated, of, spot))
}

// A left side under a pattern.
pub fn meet_pattern<'a>(
    a: LeftSide,
    o: Operation,
    q: &'a [u8],
    i: &'a [u8],
    of: ValueType,
    l: Left,
    t: Token,
) -> Result<Told, ComparisonRefusal>
    ensures { result ≡ judged (meaning.meet a o of.family (left_seen of q.now i.now l) (meaning.pattern (pattern_by t.start (pattern_of q.now t)))) }
{
    match l {
        Left::One(x) => judge_like(is_negated(o), a.start, q, i, of, x, t),
        _ => Err(Cause::Shape.at(a.start)),
    }
}
