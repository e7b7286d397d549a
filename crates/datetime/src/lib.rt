// Datetimes of 01, "Datetime (DSP0004)", with the unknown digits of 02 Q-6: the moments of a timestamp, the lengths of an interval, and their order.
#![tactic(auto)]

pub mod calendar;
pub mod days_before;
pub mod exact;
pub mod fields;
pub mod moment;
pub mod order;
pub mod read;
pub mod text;
pub mod unknown;

// From a lowest to a highest moment or length, in microseconds.
#[derive(Clone, Copy, PartialEq, Eq)]
pub struct Span {
    pub lowest: i64,
    pub highest: i64,
}

// What a datetime's text says: a timestamp's moments or an interval's lengths. A text that is neither is a value too, in no order with any, and so no Option.
#[derive(Clone, Copy)]
pub enum Datetime {
    Timestamp(Span),
    Interval(Span),
    Malformed,
}
