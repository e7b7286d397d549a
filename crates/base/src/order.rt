// How two values stand to each other, and what a comparison operator makes of that.
ghost use Rattle.std.specs.Prelude.{◌≡◌};
ghost use Rattle.base.specs.Order.{holds};

// Undecided: neither equal nor in order.
#[derive(Drop)]
#[derive(Clone, Copy, PartialEq, Eq)]
pub enum Order {
    Before,
    Same,
    After,
    Undecided,
}

// `=`, `<>`, `<`, `<=`, `>`, `>=`.
#[derive(Drop)]
#[derive(Clone, Copy, PartialEq, Eq)]
pub enum Operator {
    Equal,
    Unequal,
    Less,
    AtMost,
    Greater,
    AtLeast,
}

// Whether the operator holds of two values that are not NULL and stand so to each other.
pub fn holds_for(op: Operator, o: Order) -> bool
    ensures { result ≡ holds op o }
{
    match op {
        Operator::Equal => o == Order::Same,
        Operator::Unequal => o != Order::Same,
        Operator::Less => o == Order::Before,
        Operator::AtMost => matches!(o, Order::Before | Order::Same),
        Operator::Greater => o == Order::After,
        Operator::AtLeast => matches!(o, Order::After | Order::Same),
    }
}
