// The pattern of a string literal.
ghost use Rattle.std.specs.Prelude.{◌≡◌, [], ◌∷◌};
ghost use Rattle.pattern.specs.Reading.{is_some};
ghost use Rattle.encoding.specs.Characters.{characters};
ghost use Rattle.operand.specs.PatternLiteral.{pattern_of, matched};

use matcher::matcher::{Matched, match_one, match_text};
use pattern::reader::check_pattern;
use string_literal::fill;
use token::Token;
use value_literal::after_quote;

// Whether a string literal's characters make a pattern.
#[tactic(auto, using(crate::proofs::Laws::count_within, crate::proofs::Laws::count_taken, crate::proofs::Laws::is_held, crate::proofs::Laws::is_over))]
pub fn is_pattern(q: &[u8], t: Token) -> bool
    ensures { result ≡ is_some (pattern_of q.now t) }
{
    let mut buffer = [0u32; 256];
    match fill(q, after_quote(q, t.start), &mut buffer) {
        Some(n) => check_pattern(&buffer[..n]),
        None => false,
    }
}

// A text in UTF-8 under the pattern of a string literal.
#[tactic(auto, using(crate::proofs::Laws::count_within, crate::proofs::Laws::count_taken, crate::proofs::Laws::text_held, crate::proofs::Laws::text_over))]
pub fn match_utf8<'a>(q: &'a [u8], t: Token, text: &'a [u8]) -> Matched
    ensures { result ≡ matched q.now t (characters text.now) }
{
    let mut buffer = [0u32; 256];
    let Some(n) = fill(q, after_quote(q, t.start), &mut buffer) else {
        // `*` follows no item: it is no pattern either
        return match_text(&[42u32], text);
    };
    match_text(&buffer[..n], text)
}

// One character under the pattern of a string literal.
#[tactic(auto, using(crate::proofs::Laws::count_within, crate::proofs::Laws::count_taken, crate::proofs::Laws::one_held, crate::proofs::Laws::one_over))]
pub fn match_character(q: &[u8], t: Token, c: u32) -> Matched
    ensures { result ≡ matched q.now t (c ∷ []) }
{
    let mut buffer = [0u32; 256];
    match fill(q, after_quote(q, t.start), &mut buffer) {
        Some(n) => Matched {
            holds: match_one(&buffer[..n], c),
            characters: 1,
        },
        None => Matched {
            holds: false,
            characters: 1,
        },
    }
}
