// The reader of a pattern: alternatives hold sequences, sequences hold items, an item may be a group of alternatives. In one pass it works out
// the pattern's sets, and what may follow each of its symbols.
ghost use Rattle.std.specs.Prelude.{◌≡◌, drop};
ghost use Rattle.pattern.specs.Reading.{parse, symbol_item, ends, well_formed};
ghost use Rattle.pattern.specs.Answers.{GivesPart, ReadsRepeat, ReadsAlternatives, ReadsSequence, ReadsItem, GivesPattern};

use crate::character::{ASTERISK, BAR, CLOSE_GROUP, OPEN_GROUP, PLUS_SIGN, QUESTION_MARK, is_at};
use crate::fragment::Fragment;
use crate::links::{LINKS, link};
use crate::symbol::read_symbol;

const MOST_CHARACTERS: usize = 256;

const MOST_SYMBOLS: usize = 60;

const DEEPEST_GROUP: usize = 8;

// A part of the pattern: the offset after it, the number of symbols up to there, and what the part does.
#[derive(Clone, Copy)]
pub struct PartRead {
    pub end: usize,
    pub symbols: usize,
    pub sets: Fragment,
}

// The part before `at`, with the sign at `at` if there is one.
#[tactic(auto, using(crate::proofs::Parts::repeat_star, crate::proofs::Parts::repeat_plus, crate::proofs::Parts::repeat_optional, crate::proofs::Parts::repeat_none))]
fn read_repeat(s: &[u32], at: usize, k: usize, f: Fragment, links: &mut [u64; LINKS]) -> PartRead
    ensures { ReadsRepeat s.now at k f links.old links.new result }
{
    if is_at(s, at, ASTERISK) {
        link(links, f.last, f.first);
        return PartRead {
            end: at + 1,
            symbols: k,
            sets: f.optional(),
        };
    }
    if is_at(s, at, PLUS_SIGN) {
        link(links, f.last, f.first);
        return PartRead {
            end: at + 1,
            symbols: k,
            sets: f,
        };
    }
    if is_at(s, at, QUESTION_MARK) {
        return PartRead {
            end: at + 1,
            symbols: k,
            sets: f.optional(),
        };
    }
    PartRead {
        end: at,
        symbols: k,
        sets: f,
    }
}

#[tactic(auto, using(crate::proofs::Offsets::ends_past, crate::proofs::Offsets::ends_here))]
fn ends_at(s: &[u32], at: usize) -> bool
    ensures { result ≡ ends (drop at s.now) }
{
    s.len() <= at || matches!(s[at], BAR | CLOSE_GROUP)
}

// The k-th symbol, with its sign.
#[tactic(auto, using(crate::proofs::Parts::symbol_full, crate::proofs::Parts::symbol_none, crate::proofs::Parts::symbol_item_rule))]
fn read_symbol_item(s: &[u32], at: usize, k: usize, links: &mut [u64; LINKS]) -> Option<PartRead>
    ensures { GivesPart s.now links.old links.new result (symbol_item k (drop at s.now)) }
{
    if MOST_SYMBOLS <= k {
        return None;
    }
    let (end, _) = read_symbol(s, at, 0)?;
    Some(read_repeat(s, end, k + 1, Fragment::of_symbol(k), links))
}

// `depth`: the groups around the part; `k`: the symbols before it.
#[cycle(read_alternatives_read_item_read_sequence)]
fn read_alternatives(
    s: &[u32],
    at: usize,
    depth: usize,
    k: usize,
    links: &mut [u64; LINKS],
) -> Option<PartRead>
    ensures { ReadsAlternatives s.now at depth k links.old links.new result }
{
    let mut i = at;
    let mut n = k;
    let mut whole = Fragment::NONE;
    loop {
        let part = read_sequence(s, i, depth, n, links)?;
        whole = whole.or(part.sets);
        if !is_at(s, part.end, BAR) {
            return Some(PartRead {
                sets: whole,
                ..part
            });
        }
        i = part.end + 1;
        n = part.symbols;
    }
}

#[cycle(read_alternatives_read_item_read_sequence)]
fn read_sequence(
    s: &[u32],
    at: usize,
    depth: usize,
    k: usize,
    links: &mut [u64; LINKS],
) -> Option<PartRead>
    ensures { ReadsSequence s.now at depth k links.old links.new result }
{
    let mut i = at;
    let mut n = k;
    let mut whole = Fragment::EMPTY;
    while !ends_at(s, i) {
        let part = read_item(s, i, depth, n, links)?;
        link(links, whole.last, part.sets.first);
        whole = whole.then(part.sets);
        i = part.end;
        n = part.symbols;
    }
    Some(PartRead {
        end: i,
        symbols: n,
        sets: whole,
    })
}

#[cycle(read_alternatives_read_item_read_sequence)]
fn read_item(
    s: &[u32],
    at: usize,
    depth: usize,
    k: usize,
    links: &mut [u64; LINKS],
) -> Option<PartRead>
    ensures { ReadsItem s.now at depth k links.old links.new result }
{
    if !is_at(s, at, OPEN_GROUP) {
        return read_symbol_item(s, at, k, links);
    }
    if DEEPEST_GROUP <= depth {
        return None;
    }
    let group = read_alternatives(s, at + 1, depth + 1, k, links)?;
    if !is_at(s, group.end, CLOSE_GROUP) {
        return None;
    }
    Some(read_repeat(s, group.end + 1, group.symbols, group.sets, links))
}

// The whole pattern: its sets, and what follows each symbol.
#[tactic(auto, using(crate::proofs::Parts::pattern_long, crate::proofs::Parts::pattern_bad, crate::proofs::Parts::pattern_rest, crate::proofs::Parts::pattern_whole))]
pub fn read_pattern(p: &[u32], links: &mut [u64; LINKS]) -> Option<Fragment>
    ensures { GivesPattern links.old links.new result (parse p.now) }
{
    if MOST_CHARACTERS < p.len() {
        return None;
    }
    let whole = read_alternatives(p, 0, 0, 0, links)?;
    if whole.end < p.len() {
        return None;
    }
    Some(whole.sets)
}

// Whether a text is a pattern, within the limits.
pub fn check_pattern(p: &[u32]) -> bool
    ensures { result ≡ well_formed p.now }
{
    let mut links = [0u64; LINKS];
    read_pattern(p, &mut links).is_some()
}
