// ANY and EVERY.
#![tactic(auto)]

ghost use Rattle.std.specs.Prelude.{◌≡◌, false, not};
ghost use Rattle.std.proofs.Math.Option.{some};
ghost use Rattle.value.specs.Item.{item_value};
ghost use Rattle.short_circuit.specs.Walk.{told};
ghost use Rattle.place.specs.Negation.{reversed_if};
ghost use Rattle.place.specs.Place.{elements_of, body_value, located_value};
ghost use Rattle.search.specs.Search as definition;
ghost use Rattle.search.specs.Search.{searched};

use base::bytes::piece;
use base::order::Operator;
use place::negation::reverse_if;
use place::{Located, Part, bytes_of, holds_in};
use record::kind::ValueType;
use record::walk::records_from;
use short_circuit::Told;
use value::item::Item;

// Whether an element decides ANY (`any`) or EVERY.
fn decides(any: bool, holds: bool) -> bool
    ensures { result ≡ definition.decides any holds }
{
    reverse_if(!any, holds)
}

// No element has decided it.
fn undecided(any: bool, n: usize) -> Told
    ensures { result ≡ told (not any) n }
{
    Told {
        holds: !any,
        steps: n,
    }
}

// The records of an array: the search ends at the first element that decides it. (A `for` can't break with a value.)
fn search_records<'a>(
    any: bool,
    op: Operator,
    a: &'a [u8],
    of: ValueType,
    b: &'a [u8],
    y: Item,
) -> Told
    ensures { result ≡ searched false any op (some (elements_of of a.now)) (item_value b.now y) }
{
    let mut records = records_from(a, 0);
    let mut n: usize = 1;
    loop {
        match records.next() {
            Some(Ok(record)) => {
                if decides(any, holds_in(op, a, of, record, b, y)) {
                    break Told {
                        holds: any,
                        steps: n + 1,
                    };
                }
                n += 1;
            }
            Some(Err(_)) => break undecided(any, n),
            None => break undecided(any, n),
        }
    }
}

#[tactic(auto, using(crate::proofs::Searching::turned))]
fn turn(negated: bool, t: Told) -> Told
    ensures { result ≡ told (reversed_if negated t.holds) t.steps }
{
    Told {
        holds: reverse_if(negated, t.holds),
        steps: t.steps,
    }
}

// ANY (`any`) or EVERY element of an array, beside a value.
#[tactic(auto, using(crate::proofs::Searching::search_null, crate::proofs::Searching::search_body))]
pub fn search<'a>(
    negated: bool,
    any: bool,
    op: Operator,
    q: &'a [u8],
    i: &'a [u8],
    of: ValueType,
    x: Option<Part>,
    y: Located,
) -> Told
    ensures { result ≡ searched negated any op (body_value of i.now x) (located_value q.now i.now y) }
{
    match x {
        None => Told {
            holds: negated,
            steps: 1,
        },
        Some(body) => {
            let b = bytes_of(q, i, y.source);
            let a = piece(i, body.start, body.length);
            turn(negated, search_records(any, op, a, of, b, y.item))
        }
    }
}
