// Whole arrays: of an instance, or an array literal's on the right.
#![tactic(auto)]

ghost use Rattle.std.specs.Prelude.{◌≡◌};
ghost use Rattle.std.proofs.Math.Option.{some};
ghost use Rattle.base.specs.Order.{holds};
ghost use Rattle.record.specs.Record.{records};
ghost use Rattle.instance.specs.Conforms as conforms;
ghost use Rattle.value.specs.Compare.{equality};
ghost use Rattle.operand.specs.Element.{elements_from, element_tokens};
ghost use Rattle.short_circuit.specs.Walk.{told};
ghost use Rattle.place.specs.Place.{elements_of, body_value, literal_values};
ghost use Rattle.arrays.specs.Answers.{compared};

use base::bytes::piece;
use base::order::{Operator, Order, holds_for};
use operand::element::{first_element, next_element};
use place::{Part, holds_in, literal_item_or_null};
use record::kind::ValueType;
use record::walk::records_from;
use short_circuit::Told;
use token::Token;
use value::read::{count_elements, read_item};

// What an operator makes of an equality.
#[tactic(auto, using(crate::proofs::Comparing::equal_holds, crate::proofs::Comparing::unequal_holds))]
fn holds_equality(op: Operator, same: bool) -> bool
    ensures { result ≡ holds op (equality same) }
{
    if same {
        return holds_for(op, Order::Same);
    }
    holds_for(op, Order::Undecided)
}

#[tactic(auto, using(crate::proofs::Comparing::equality_told))]
fn tell(op: Operator, same: bool, steps: usize) -> Told
    ensures { result ≡ told (holds op (equality same)) steps }
{
    Told {
        holds: holds_equality(op, same),
        steps,
    }
}

// Two arrays of equal size, pair by pair.
fn compare_pairs<'a>(op: Operator, a: &'a [u8], of: ValueType, b: &'a [u8], with: ValueType) -> Told
    requires { conforms.count (records a.now 0) ≡ conforms.count (records b.now 0) }
    ensures { result ≡ compared op (some (elements_of of a.now)) (some (elements_of with b.now)) }
{
    let mut n: usize = 1;
    for (x, y) in records_from(a, 0).zip(records_from(b, 0)) {
        let Ok(x) = x else {
            return tell(op, true, n);
        };
        let Ok(y) = y else {
            return tell(op, true, n);
        };
        let other = read_item(b, with, y.kind, y.start, y.length);
        if holds_in(Operator::Equal, a, of, x, b, other) {
            n += 1;
        } else {
            return tell(op, false, n + 1);
        }
    }
    tell(op, true, n)
}

// Two arrays of an instance.
#[tactic(auto, using(crate::proofs::Comparing::bodies_null, crate::proofs::Comparing::bodies_first_null, crate::proofs::Comparing::bodies_second_null, crate::proofs::Comparing::bodies_pairs, crate::proofs::Comparing::bodies_sizes, crate::proofs::Comparing::sizes_same))]
pub fn compare_bodies(
    op: Operator,
    i: &[u8],
    of: ValueType,
    x: Option<Part>,
    with: ValueType,
    y: Option<Part>,
) -> Told
    ensures { result ≡ compared op (body_value of i.now x) (body_value with i.now y) }
{
    match (x, y) {
        (None, None) => tell(op, true, 1),
        (None, Some(_)) => tell(op, false, 1),
        (Some(_), None) => tell(op, false, 1),
        (Some(x), Some(y)) => {
            let a = piece(i, x.start, x.length);
            let b = piece(i, y.start, y.length);
            if count_elements(a) != count_elements(b) {
                return tell(op, false, 1);
            }
            compare_pairs(op, a, of, b, with)
        }
    }
}

// An array and as many elements of an array literal, pair by pair.
fn compare_literals<'a>(op: Operator, a: &'a [u8], of: ValueType, q: &'a [u8], first: Token) -> Told
    ensures { result ≡ compared op (some (elements_of of a.now)) (some (literal_values of.family q.now (elements_from q.now first (conforms.count (records a.now 0))))) }
{
    let mut t = first;
    let mut steps: usize = 1;
    for record in records_from(a, 0) {
        let Ok(record) = record else {
            return tell(op, true, steps);
        };
        let y = literal_item_or_null(of.family, q, t);
        if holds_in(Operator::Equal, a, of, record, q, y) {
            t = next_element(q, t);
            steps += 1;
        } else {
            return tell(op, false, steps + 1);
        }
    }
    tell(op, true, steps)
}

// An array of an instance and the array literal of `count` elements that starts at `start` in the query.
#[tactic(auto, using(crate::proofs::Comparing::literal_null, crate::proofs::Comparing::literal_sizes, crate::proofs::Comparing::literal_pairs))]
pub fn compare_elements<'a>(
    op: Operator,
    q: &'a [u8],
    i: &'a [u8],
    of: ValueType,
    x: Option<Part>,
    start: usize,
    count: usize,
) -> Told
    ensures { result ≡ compared op (body_value of i.now x) (some (literal_values of.family q.now (element_tokens q.now start count))) }
{
    let Some(x) = x else {
        return tell(op, false, 1);
    };
    let a = piece(i, x.start, x.length);
    if count_elements(a) != count {
        return tell(op, false, 1);
    }
    compare_literals(op, a, of, q, first_element(q, start))
}
