// A literal as a value beside a property.
ghost use Rattle.std.specs.Prelude.{◌≡◌};
ghost use Rattle.value.specs.Item.{item_value};
ghost use Rattle.operand.specs.LiteralReading.{no_datetime, read_literal, is_null_literal};
ghost use Rattle.operand.specs.LiteralReading as reading;
ghost use Rattle.operand.specs.Answers.{reading_of};

use datetime::Datetime;
use literal::sort::{Sort, is_unsigned_hex, sort_of};
use literal::{LiteralFault, literal_of};
use record::kind::{Family, same_row};
use token::Token;
use value::item::Item;
use value_literal::literal_item;

// Why a literal is no value beside a property: of another row; out of range; text beside a datetime that says none.
#[derive(Clone, Copy, PartialEq, Eq)]
pub enum ReadFault {
    Misfit,
    OutOfRange,
    Malformed,
}

impl From<LiteralFault> for ReadFault {
    ghost use Rattle.operand.specs.LiteralReading.{fault_read};

    ghost from_gives = { λ f r. r ≡ fault_read f };

    fn from(f: LiteralFault) -> ReadFault {
        match f {
            LiteralFault::OutOfRange => ReadFault::OutOfRange,
            LiteralFault::NoLiteral => ReadFault::Misfit,
        }
    }
}

#[tactic(auto, unfolding(crate::specs::LiteralReading::fits))]
fn fits(family: Family, unsigned: bool, sort: Option<Sort>) -> bool
    ensures { result ≡ reading.fits family unsigned sort }
{
    match sort {
        Some(Sort::Truth) => same_row(family, Family::Boolean),
        Some(Sort::Integer) => same_row(family, Family::Integer),
        Some(Sort::Hex) => same_row(family, Family::Integer)
            | (same_row(family, Family::Octets) & unsigned),
        Some(Sort::Real) => same_row(family, Family::Real),
        Some(Sort::Text) => same_row(family, Family::Text)
            | (same_row(family, Family::Datetime) | same_row(family, Family::Reference)),
        Some(Sort::Null) => true,
        None => false,
    }
}

#[tactic(auto, using(crate::proofs::Laws::units_said), unfolding(crate::specs::LiteralReading::no_datetime, value::specs::Item::item_value))]
fn is_no_datetime(q: &[u8], x: Item) -> bool
    ensures { result ≡ no_datetime (item_value q.now x) }
{
    matches!(x, Item::Datetime(Datetime::Malformed))
}

// The literal of a token beside a property of a family.
#[tactic(auto, using(crate::proofs::Laws::literal_outside))]
pub fn read_literal(family: Family, q: &[u8], t: Token) -> Result<Item, ReadFault>
    ensures { reading_of q.now result ≡ read_literal family q.now t }
{
    if q.len() < t.start {
        return Err(ReadFault::Misfit);
    }
    if !fits(family, is_unsigned_hex(q, t), sort_of(t.kind)) {
        return Err(ReadFault::Misfit);
    }
    let literal = match literal_of(same_row(family, Family::Octets), q, t) {
        Ok(literal) => literal,
        Err(fault) => return Err(ReadFault::from(fault)),
    };
    let item = literal_item(family, q, literal);
    if is_no_datetime(q, item) {
        return Err(ReadFault::Malformed);
    }
    Ok(item)
}

// Whether a token is the literal NULL.
#[tactic(auto, unfolding(crate::specs::LiteralReading::is_null_literal))]
pub fn is_null_literal(t: Token) -> bool
    ensures { result ≡ is_null_literal t }
{
    matches!(sort_of(t.kind), Some(Sort::Null))
}
