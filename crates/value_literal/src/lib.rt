// Literals of a query as values.
#![tactic(auto)]

pub mod datetime_text;

ghost use Rattle.std.specs.Prelude.{◌≡◌, ◌-◌, length};
ghost use Rattle.std.proofs.Math.Option.{some};
ghost use Rattle.value.specs.Unit.{units_from};
ghost use Rattle.value.specs.Item.{listed, sequence_of, item_value};
ghost use Rattle.instance.specs.Value as value;
ghost use Rattle.value_literal.specs.LiteralValue.{text_of, octets_of, after_quote, text_value, literal_value};

use crate::datetime_text::datetime_in;
use literal::Literal;
use record::kind::Family;
use value::item::{Item, Sequence, Sort};
use value::unit::Form;

// The place after a quote, within the query.
#[tactic(auto, unfolding(base::specs::Pick::pick))]
pub fn after_quote(q: &[u8], start: usize) -> usize
    ensures { result ≡ after_quote q.now start }
{
    if start < q.len() { start + 1 } else { q.len() }
}

// The units of the string literal that starts at a place.
#[tactic(auto, using(crate::proofs::Laws::quoted_units))]
fn quoted(sort: Sort, form: Form, q: &[u8], start: usize) -> Item
    ensures { item_value q.now result ≡ some (listed sort (units_from form q.now (after_quote q.now start))) }
{
    let at = after_quote(q, start);
    Item::Sequence(Sequence {
        sort,
        form,
        start: 0,
        length: q.len(),
        at,
    })
}

fn hex_octets(start: usize, length: usize) -> Item
    ensures { result ≡ sequence_of Sort.Octets Form.Hex start length }
{
    Item::Sequence(Sequence {
        sort: Sort::Octets,
        form: Form::Hex,
        start,
        length,
        at: 0,
    })
}

// The octets of the hex literal from `start` to `end`.
#[tactic(auto, using(crate::proofs::Laws::octets_past, crate::proofs::Laws::octets_pairs))]
fn octets_item(q: &[u8], start: usize, end: usize) -> Item
    ensures { item_value q.now result ≡ some (value.octets (octets_of q.now start end)) }
{
    if q.len() <= start {
        return hex_octets(0, 0);
    }
    let digits = start + 2;
    hex_octets(digits, end.saturating_sub(digits))
}

// A text literal as a value of the family.
#[tactic(auto, using(crate::proofs::Laws::quoted_text, crate::proofs::Laws::quoted_reference, crate::proofs::Laws::quoted_datetime), unfolding(crate::specs::LiteralValue::text_value))]
fn text_item(family: Family, q: &[u8], start: usize) -> Item
    ensures { item_value q.now result ≡ some (text_value family (text_of q.now start)) }
{
    match family {
        Family::Datetime => Item::Datetime(datetime_in(q, after_quote(q, start))),
        Family::Reference => quoted(Sort::Reference, Form::Encoded(0), q, start),
        _ => quoted(Sort::Text, Form::Quoted, q, start),
    }
}

// The value that a literal of the query stands for beside a value of the family, over the query's text.
#[tactic(auto, unfolding(crate::specs::LiteralValue::literal_value, value::specs::Item::item_value))]
pub fn literal_item(family: Family, q: &[u8], l: Literal) -> Item
    ensures { item_value q.now result ≡ literal_value family q.now l }
{
    match l {
        Literal::Truth(b) => Item::Truth(b),
        Literal::Integer(n) => Item::Integer(n),
        Literal::Real(x) => Item::Real(x.value),
        Literal::Text { start, end: _ } => text_item(family, q, start),
        Literal::Octets { start, end } => octets_item(q, start, end),
        Literal::Null => Item::Null,
    }
}
