// The order of two datetimes.
ghost use Rattle.std.specs.Prelude.{◌≡◌};
ghost use Rattle.datetime.specs.Order.{order_of_spans, order_of_datetimes};

use crate::{Datetime, Span};
use base::order::Order;

fn order_of_spans(a: Span, b: Span) -> Order
    ensures { result ≡ order_of_spans a b }
{
    if a.highest < b.lowest {
        return Order::Before;
    }
    if b.highest < a.lowest {
        return Order::After;
    }
    if a == b {
        return Order::Same;
    }
    Order::Undecided
}

pub fn order_of_datetimes(a: Datetime, b: Datetime) -> Order
    ensures { result ≡ order_of_datetimes a b }
{
    match (a, b) {
        (Datetime::Timestamp(x), Datetime::Timestamp(y))
        | (Datetime::Interval(x), Datetime::Interval(y)) => order_of_spans(x, y),
        _ => Order::Undecided,
    }
}
