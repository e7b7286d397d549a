// Symbols: the dot, characters, sets. Of each the offset after it, and whether it stands for a character.
ghost use Rattle.std.specs.Prelude.{drop};
ghost use Rattle.pattern.specs.Reading.{symbol, set_from};
ghost use Rattle.pattern.specs.Answers.{GivesSymbol};

use crate::character::{BACKSLASH, CIRCUMFLEX, DOT, OPEN_SET, is_at, is_special};
use crate::set::{read_escaped, read_members};

// A set, from behind its `[` on.
#[tactic(auto, using(crate::proofs::Symbols::set_negated_none, crate::proofs::Symbols::set_negated, crate::proofs::Symbols::set_plain))]
fn read_set(s: &[u32], at: usize, c: u32) -> Option<(usize, bool)>
    ensures { GivesSymbol s.now c result (set_from (drop at s.now)) }
{
    if !is_at(s, at, CIRCUMFLEX) {
        return read_members(s, at, c);
    }
    let (end, hit) = read_members(s, at + 1, c)?;
    Some((end, !hit))
}

#[tactic(auto, using(crate::proofs::Symbols::symbol_end, crate::proofs::Symbols::symbol_dot, crate::proofs::Symbols::symbol_escape_end, crate::proofs::Symbols::symbol_escaped, crate::proofs::Symbols::symbol_set, crate::proofs::Symbols::symbol_special, crate::proofs::Symbols::symbol_plain))]
pub(crate) fn read_symbol(s: &[u32], at: usize, c: u32) -> Option<(usize, bool)>
    ensures { GivesSymbol s.now c result (symbol (drop at s.now)) }
{
    if s.len() <= at {
        return None;
    }
    match s[at] {
        DOT => Some((at + 1, true)),
        BACKSLASH => {
            let (end, x) = read_escaped(s, at + 1)?;
            Some((end, x == c))
        }
        OPEN_SET => read_set(s, at + 1, c),
        x if is_special(x) => None,
        x => Some((at + 1, x == c)),
    }
}
