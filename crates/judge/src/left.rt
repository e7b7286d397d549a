// The left side of a comparison.
ghost use Rattle.record.specs.Kind.{kind_of};
ghost use Rattle.instance.specs.Value.{value_at};
ghost use Rattle.judge.specs.Answers.{ElementIn, IndexedIn, ScalarLeft, ArrayLeft, KindLeft};

use base::bytes::piece;
use instance::start::start_of;
use operand::index::read_index;
use place::{Part, Source, Spot, body_at};
use record::kind::{Kind, ValueType, kind_of};
use terminal::quantifier::Quantifier;
use token::Token;

// In the wrong form; one value, or the place of an index that is too large; a whole array; ANY (`true`) or EVERY element of one.
#[derive(Drop)]
pub enum Left {
    Misshapen,
    One(Result<Spot, usize>),
    Many(Option<Part>),
    Each(bool, Option<Part>),
}

// The record of an array's element; of NULL none is read.
fn element_spot(i: &[u8], x: Option<Part>, n: usize) -> Spot
    ensures { ElementIn i.now x n result }
{
    match x {
        None => Spot {
            source: Source::Part(Part {
                start: 0,
                length: 0,
            }),
            place: 0,
        },
        Some(part) => Spot {
            source: Source::Part(part),
            place: start_of(piece(i, part.start, part.length), n),
        },
    }
}

// The element of an array at the index of a token.
pub fn read_indexed<'a>(q: &'a [u8], i: &'a [u8], t: Token, x: Option<Part>) -> Result<Spot, usize>
    ensures { IndexedIn q.now i.now t x result }
{
    match read_index(q, t) {
        Some(n) => Ok(element_spot(i, x, n)),
        None => Err(t.start),
    }
}

// Of the scalar in the record at a place.
fn left_scalar(k: Quantifier, index: Option<Token>, place: usize) -> Left
    ensures { ScalarLeft k index place result }
{
    match k {
        Quantifier::Single => match index {
            None => Left::One(Ok(Spot {
                source: Source::Instance,
                place,
            })),
            Some(_) => Left::Misshapen,
        },
        Quantifier::Any => Left::Misshapen,
        Quantifier::Every => Left::Misshapen,
    }
}

// Of an array.
fn left_array<'a>(
    q: &'a [u8],
    i: &'a [u8],
    k: Quantifier,
    index: Option<Token>,
    x: Option<Part>,
) -> Left
    ensures { ArrayLeft q.now i.now k index x result }
{
    match k {
        Quantifier::Single => match index {
            None => Left::Many(x),
            Some(t) => Left::One(read_indexed(q, i, t, x)),
        },
        Quantifier::Any => Left::Each(true, x),
        Quantifier::Every => Left::Each(false, x),
    }
}

// Of the property of a kind whose record starts at a place.
pub fn left_of<'a>(
    q: &'a [u8],
    i: &'a [u8],
    k: Quantifier,
    index: Option<Token>,
    kind: usize,
    place: usize,
) -> Option<(ValueType, Left)>
    ensures { KindLeft q.now i.now k index (kind_of kind) (value_at kind i.now place) result }
{
    match kind_of(kind) {
        Kind::Unknown => None,
        Kind::Scalar(of) => Some((of, left_scalar(k, index, place))),
        Kind::Array { element: _, of } => Some((of, left_array(q, i, k, index, body_at(i, place)))),
    }
}
