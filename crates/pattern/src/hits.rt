// The symbols that stand for a character.
ghost use Rattle.std.specs.Prelude.{◌<◌, length, drop};
ghost use Rattle.pattern.specs.Reading.{symbol};
ghost use Rattle.pattern.specs.Answers.{GivesSymbol};
ghost use Rattle.pattern.specs.Hits.{Hits};

use crate::character::{DOT, is_between, is_special};
use crate::fragment::keep_if;
use crate::links::LINKS;
use crate::symbol::read_symbol;

// As `read_symbol`, of which the two symbols that are most patterns are told here.
#[tactic(auto, using(crate::proofs::Symbols::symbol_dot, crate::proofs::Scanned::symbol_ordinary))]
fn symbol_at(p: &[u32], at: usize, c: u32) -> Option<(usize, bool)>
    requires { at < length p.now }
    ensures { GivesSymbol p.now c result (symbol (drop at p.now)) }
{
    match p[at] {
        DOT => Some((at + 1, true)),
        x if is_special(x) => read_symbol(p, at, c),
        x => Some((at + 1, x == c)),
    }
}

// The symbols of a pattern that stand for the character c, whatever stands between them.
#[tactic(auto, using(crate::proofs::Scanned::scanning_start, crate::proofs::Scanned::scanning_passed, crate::proofs::Scanned::scanned_full, crate::proofs::Scanned::scanned_bad, crate::proofs::Scanned::symbol_further, crate::proofs::Scanned::scanning_next, crate::proofs::Scanned::scanned_end))]
pub fn hits_of(p: &[u32], c: u32) -> u64
    ensures { Hits p.now c result }
{
    let mut at = 0;
    let mut k = 0;
    let mut found = 0u64;
    // With `continue` in place of `else` the compiler makes two loops, in which a bracket takes two jumps.
    while at < p.len() {
        if is_between(p[at]) {
            at += 1;
        } else {
            if LINKS <= k {
                return found;
            }
            let Some((end, hit)) = symbol_at(p, at, c) else {
                return found;
            };
            let own = keep_if(hit, 1u64 << k);
            found |= own;
            k += 1;
            at = end;
        }
    }
    found
}
