// What is wrong with a value of a comparison.
ghost use Rattle.std.specs.Prelude.{◌≡◌};
ghost use Rattle.judge.specs.Answers.{refused_at, fault_read, fault_before};

use operand::cause::{Cause, ComparisonRefusal};
use operand::literal_read::ReadFault;

// It is of another row, or wrong in itself.
#[derive(Clone, Copy)]
pub enum ItemFault {
    Unlike,
    Faulty(ComparisonRefusal),
}

impl ItemFault {
    // Of the literal at a place.
    pub fn of_literal(fault: ReadFault, place: usize) -> ItemFault
        ensures { result ≡ fault_read place fault }
    {
        match fault {
            ReadFault::Misfit => ItemFault::Unlike,
            ReadFault::OutOfRange => ItemFault::Faulty(Cause::Range.at(place)),
            ReadFault::Malformed => ItemFault::Faulty(Cause::Datetime.at(place)),
        }
    }

    // The refusal of a comparison that starts at a place: of another row is the whole comparison.
    pub fn refused_at(self, start: usize) -> ComparisonRefusal
        ensures { result ≡ refused_at start self }
    {
        match self {
            ItemFault::Unlike => Cause::Row.at(start),
            ItemFault::Faulty(refusal) => refusal,
        }
    }

    // Of two elements' faults the one that counts: the first, unless a later element is of another row.
    pub fn before(self, later: ItemFault) -> ItemFault
        ensures { result ≡ fault_before self later }
    {
        match later {
            ItemFault::Unlike => later,
            ItemFault::Faulty(_) => self,
        }
    }
}
