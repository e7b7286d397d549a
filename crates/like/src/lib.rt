// LIKE.
#![tactic(auto)]

ghost use Rattle.std.specs.Prelude.{◌+◌, ◌<◌, ◌≡◌, false};
ghost use Rattle.std.proofs.Math.Option.{some};
ghost use Rattle.instance.specs.Value.{scalar_in};
ghost use Rattle.value.specs.Read.{value_in_record};
ghost use Rattle.short_circuit.specs.Walk.{told};
ghost use Rattle.place.specs.Negation.{reversed_if};
ghost use Rattle.place.specs.Place.{spot_value};
ghost use Rattle.like.specs.Like.{Likes};

use base::bytes::piece;
use matcher::matcher::Matched;
use operand::pattern_literal::{match_character, match_utf8};
use place::negation::reverse_if;
use place::{Spot, bytes_of};
use record::kind::{Family, ValueType};
use record::read::{RecordAt, number_at, record_at};
use short_circuit::Told;
use token::Token;

// Every character of the text counts, also where the match is lost early.
fn tell_match(negated: bool, m: Matched) -> Told
    requires { m.characters < 0xffffffffffffffff }
    ensures { result ≡ told (reversed_if negated m.holds) (1 + m.characters) }
{
    Told {
        holds: reverse_if(negated, m.holds),
        steps: 1 + m.characters,
    }
}

fn like_nothing(negated: bool) -> Told
    ensures { result ≡ told (reversed_if negated false) 1 }
{
    Told {
        holds: negated,
        steps: 1,
    }
}

// A value's body.
fn like_body<'a>(q: &'a [u8], t: Token, negated: bool, of: ValueType, body: &'a [u8]) -> Told
    ensures { Likes q.now t negated (some (scalar_in of body.now)) result }
{
    let family = of.family;
    match family {
        Family::Text => tell_match(negated, match_utf8(q, t, body)),
        Family::Char16 => tell_match(negated, match_character(q, t, number_at(body, 0) as u32)),
        Family::Boolean => like_nothing(negated),
        Family::Integer => like_nothing(negated),
        Family::Real => like_nothing(negated),
        Family::Octets => like_nothing(negated),
        Family::Datetime => like_nothing(negated),
        Family::Reference => like_nothing(negated),
    }
}

fn like_record<'a>(
    q: &'a [u8],
    t: Token,
    negated: bool,
    of: ValueType,
    a: &'a [u8],
    place: usize,
) -> Told
    ensures { Likes q.now t negated (value_in_record of a.now place) result }
{
    match record_at(a, place) {
        RecordAt::Whole {
            kind,
            start,
            length,
            next: _,
        } => {
            if kind == 0 {
                return like_nothing(negated);
            }
            like_body(q, t, negated, of, piece(a, start, length))
        }
        RecordAt::Broken => like_nothing(negated),
        RecordAt::End => like_nothing(negated),
    }
}

// The text in a record under the pattern of a string literal.
pub fn like<'a>(q: &'a [u8], i: &'a [u8], t: Token, negated: bool, of: ValueType, x: Spot) -> Told
    ensures { Likes q.now t negated (spot_value of q.now i.now x) result }
{
    let source = x.source;
    like_record(q, t, negated, of, bytes_of(q, i, source), x.place)
}
