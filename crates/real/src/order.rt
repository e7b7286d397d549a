// The order of two reals.
ghost use Rattle.std.specs.Prelude.{◌≡◌};
ghost use Rattle.real.specs.Order.{order_of_reals};

use base::order::Order;
use std::cmp::Ordering;

pub fn order_of_reals(a: f64, b: f64) -> Order
    ensures { result ≡ order_of_reals a b }
{
    match a.partial_cmp(&b) {
        Some(Ordering::Less) => Order::Before,
        Some(Ordering::Equal) => Order::Same,
        Some(Ordering::Greater) => Order::After,
        None => Order::Undecided,
    }
}
