// How two values stand to each other, and whether a comparison operator holds of them.
ghost use Rattle.std.specs.Prelude.{◌≡◌, not};
ghost use Rattle.base.specs.Pick.{pick};
ghost use Rattle.base.specs.Part.{part};
ghost use Rattle.value.specs.Compare as Compare;
ghost use Rattle.value.specs.Compare.{order_of_scalars, order_of, null_holds, compares};
ghost use Rattle.value.specs.Item.{sequence_value, item_value};
ghost use Rattle.value.specs.Unit.{units_from, units};

use crate::item::{Item, Sequence, is_null};
use crate::same::same_units;
use crate::unit::Units;
use base::bytes::piece;
use base::integer::order_of_whole;
use base::order::{Operator, Order, holds_for};
use datetime::order::order_of_datetimes;
use real::order::order_of_reals;

fn equality(same: bool) -> Order
    ensures { result ≡ Compare.equality same }
{
    if same { Order::Same } else { Order::Undecided }
}

fn order_of_truths(a: bool, b: bool) -> Order
    ensures { result ≡ Compare.equality (pick a b (not b)) }
{
    if a {
        return equality(b);
    }
    equality(!b)
}

// The units of a sequence that stands in a slice.
fn units_in<'a>(s: &'a [u8], q: Sequence) -> Units<'a>
    ensures { units result ≡ units_from q.form (part s.now q.start q.length) q.at }
{
    Units {
        form: q.form,
        bytes: piece(s, q.start, q.length),
        at: q.at,
    }
}

#[tactic(auto, using(crate::proofs::Ordering::sorts_differ, crate::proofs::Ordering::sorts_agree))]
fn order_of_sequences<'a>(a: &'a [u8], x: Sequence, b: &'a [u8], y: Sequence) -> Order
    ensures { result ≡ order_of_scalars (sequence_value a.now x) (sequence_value b.now y) }
{
    if x.sort != y.sort {
        return Order::Undecided;
    }
    equality(same_units(units_in(a, x), units_in(b, y)))
}

// How the value of `x`, from the slice `a`, stands to that of `y`, from `b`; a NULL is in order with nothing.
pub fn order_of_items<'a>(a: &'a [u8], x: Item, b: &'a [u8], y: Item) -> Order
    ensures { result ≡ order_of (item_value a.now x) (item_value b.now y) }
{
    match (x, y) {
        (Item::Truth(m), Item::Truth(n)) => order_of_truths(m, n),
        (Item::Integer(m), Item::Integer(n)) => order_of_whole(m, n),
        (Item::Real(m), Item::Real(n)) => order_of_reals(m, n),
        (Item::Datetime(m), Item::Datetime(n)) => order_of_datetimes(m, n),
        (Item::Sequence(m), Item::Sequence(n)) => order_of_sequences(a, m, b, n),
        _ => Order::Undecided,
    }
}

// What an operator says of two values of which at least one is NULL.
fn null_holds(op: Operator, both: bool) -> bool
    ensures { result ≡ null_holds op both }
{
    match op {
        Operator::Equal => both,
        Operator::Unequal => !both,
        _ => false,
    }
}

// Whether the operator holds of the value of `x`, from the slice `a`, and that of `y`, from `b`.
#[tactic(auto, using(crate::proofs::Ordering::left_null, crate::proofs::Ordering::right_null, crate::proofs::Ordering::no_null))]
pub fn compare_items<'a>(op: Operator, a: &'a [u8], x: Item, b: &'a [u8], y: Item) -> bool
    ensures { result ≡ compares op (item_value a.now x) (item_value b.now y) }
{
    if is_null(x) {
        return null_holds(op, is_null(y));
    }
    if is_null(y) {
        return null_holds(op, false);
    }
    holds_for(op, order_of_items(a, x, b, y))
}
