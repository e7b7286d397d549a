// Refusals: their causes, with 01's numbers, and their places.
ghost use Rattle.std.specs.Prelude.{◌≡◌};
ghost use Rattle.filter.specs.Refusal.{number_of};

use instance::conform::{InstanceFault, InstanceRefusal};
use operand::cause::{Cause as ComparisonCause, ComparisonRefusal};
use syntax::fault::{Cause as TextCause, Fault as TextFault};
use table::validate::{TableFault, TableRefusal};

// Of the table, of the query's text, of a comparison, of the instance.
#[derive(Clone, Copy)]
pub enum Cause {
    Table(TableFault),
    Text(TextCause),
    Comparison(ComparisonCause),
    Instance(InstanceFault),
}

// 01's place: a byte offset.
#[derive(Clone, Copy)]
pub struct Refusal {
    pub cause: Cause,
    pub place: usize,
}

impl From<TableRefusal> for Refusal {
    ghost use Rattle.filter.specs.declared.refusal.Cause.{Cause};

    ghost from_gives = { λ t r. r ≡ record { cause = Cause.Table t.cause; place = t.place } };

    fn from(t: TableRefusal) -> Refusal {
        Refusal {
            cause: Cause::Table(t.cause),
            place: t.place,
        }
    }
}

impl From<TextFault> for Refusal {
    ghost use Rattle.filter.specs.declared.refusal.Cause.{Cause};

    ghost from_gives = { λ f r. r ≡ record { cause = Cause.Text f.cause; place = f.place } };

    fn from(f: TextFault) -> Refusal {
        Refusal {
            cause: Cause::Text(f.cause),
            place: f.place,
        }
    }
}

impl From<ComparisonRefusal> for Refusal {
    ghost use Rattle.filter.specs.declared.refusal.Cause.{Cause};

    ghost from_gives = { λ c r. r ≡ record { cause = Cause.Comparison c.cause; place = c.place } };

    fn from(c: ComparisonRefusal) -> Refusal {
        Refusal {
            cause: Cause::Comparison(c.cause),
            place: c.place,
        }
    }
}

impl From<InstanceRefusal> for Refusal {
    ghost use Rattle.filter.specs.declared.refusal.Cause.{Cause};

    ghost from_gives = { λ i r. r ≡ record { cause = Cause.Instance i.cause; place = i.place } };

    fn from(i: InstanceRefusal) -> Refusal {
        Refusal {
            cause: Cause::Instance(i.cause),
            place: i.place,
        }
    }
}

// What an evaluation comes to, with its steps.
#[derive(Clone, Copy)]
pub enum Answer {
    Included(usize),
    Excluded(usize),
}

// 01's number of a cause.
pub fn number_of(cause: Cause) -> usize
    ensures { result ≡ number_of cause }
{
    match cause {
        Cause::Table(c) => table::validate::number_of(c),
        Cause::Text(c) => query_text::text::number_of(c),
        Cause::Comparison(c) => operand::cause::number_of(c),
        Cause::Instance(c) => instance::conform::number_of(c),
    }
}
