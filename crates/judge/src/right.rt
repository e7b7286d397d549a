// The right side of a comparison.
ghost use Rattle.std.specs.Prelude.{◌≡◌};
ghost use Rattle.operand.specs.Element.{element_tokens};
ghost use Rattle.place.specs.Place.{spot_value, located_value};
ghost use Rattle.judge.specs.Meaning.{literal, elements, of_row};
ghost use Rattle.judge.specs.Answers.{item_read, spot_read, list_read, list_before, ListOf};

use crate::fault::ItemFault;
use operand::cause::Cause;
use operand::element::{first_element, next_element};
use operand::literal_read::read_literal;
use place::{Located, Part, Source, Spot, bytes_of};
use record::kind::{Family, ValueType};
use token::Token;
use value::item::Item;
use value::read::item_at;

// No property of its name, with the name's place; an indexed scalar; one value, and whether it is the literal NULL; an array literal, with its start and how many
// elements it has; an array of the instance, of the row that is asked for or not; a pattern.
#[derive(Drop)]
pub enum Right {
    Missing(usize),
    Unindexable,
    One(bool, Result<Located, ItemFault>),
    Elements(usize, usize),
    Many(bool, ValueType, Option<Part>),
    Pattern(Token),
}

fn in_query(item: Item) -> Located
    ensures { (result.source ≡ Source.Query) × (result.item ≡ item) }
{
    Located {
        source: Source::Query,
        item,
    }
}

// A literal beside a property of a family.
pub fn literal_at<'a>(
    family: Family,
    q: &'a [u8],
    i: &'a [u8],
    t: Token,
) -> Result<Located, ItemFault>
    ensures { item_read q.now i.now result ≡ literal family q.now t }
{
    match read_literal(family, q, t) {
        Ok(x) => Ok(in_query(x)),
        Err(fault) => Err(ItemFault::of_literal(fault, t.start)),
    }
}

// The value in a record.
fn located<'a>(q: &'a [u8], i: &'a [u8], of: ValueType, s: Spot) -> Located
    ensures { located_value q.now i.now result ≡ spot_value of q.now i.now s }
{
    let source = s.source;
    let item = item_at(bytes_of(q, i, source), s.place, of);
    Located { source, item }
}

// A property's value, of the row that is asked for or not.
pub fn value_of_row<'a>(
    same: bool,
    q: &'a [u8],
    i: &'a [u8],
    of: ValueType,
    x: Result<Spot, usize>,
) -> Result<Located, ItemFault>
    ensures { item_read q.now i.now result ≡ of_row same (spot_read of q.now i.now x) }
{
    if !same {
        return Err(ItemFault::Unlike);
    }
    match x {
        Ok(s) => Ok(located(q, i, of, s)),
        Err(place) => Err(ItemFault::Faulty(Cause::Range.at(place))),
    }
}

// What is wrong with an element, without its value.
fn fault_of(y: Result<Located, ItemFault>) -> Result<(), ItemFault>
    ensures { ListOf y result }
{
    match y {
        Ok(_) => Ok(()),
        Err(fault) => Err(fault),
    }
}

// What is wrong with some elements, and with later ones.
#[tactic(auto, using(crate::proofs::Sides::before_ok, crate::proofs::Sides::before_good, crate::proofs::Sides::before_fault))]
fn before(a: Result<(), ItemFault>, b: Result<(), ItemFault>) -> Result<(), ItemFault>
    ensures { result ≡ list_before a b }
{
    match a {
        Ok(()) => b,
        Err(first) => match b {
            Ok(()) => a,
            Err(later) => Err(first.before(later)),
        },
    }
}

// Whether the elements of the array literal of `count` elements that starts at a place can be compared with an array of a family; if not, what is wrong.
pub fn check_elements(family: Family, q: &[u8], start: usize, count: usize) -> Result<(), ItemFault>
    ensures { result ≡ list_read (elements family q.now (element_tokens q.now start count)) }
{
    let mut t = first_element(q, start);
    let mut seen = Ok(());
    for _before in 0..count {
        seen = before(seen, fault_of(literal_at(family, q, q, t)));
        t = next_element(q, t);
    }
    seen
}
