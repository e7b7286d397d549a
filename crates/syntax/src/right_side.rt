// scalar-literal / array-literal / property, with or without an index / like-pattern
ghost use Rattle.std.specs.Prelude.{◌≡◌};
ghost use Rattle.syntax.specs.Scan.{scan};
ghost use Rattle.syntax.specs.Comparison.{elements, array_literal, operand, pattern, right_side};

use crate::fault::{Fault, grammar_at, limit_at};
use crate::operation::Operation;
use crate::path::{Path, read_reference};
use base::order::Operator;
use terminal::kind::is_kind;
use terminal::literal::is_literal;
use terminal::operator::is_equality;
use token::{Punctuation, Token, TokenKind, token_after};

// Elements: where the array literal starts, how many there are, and where it ends.
#[derive(Clone, Copy)]
pub enum RightSide {
    Literal(Token),
    Elements {
        start: usize,
        count: usize,
        end: usize,
    },
    Property(Path, Option<Token>),
    Pattern(Token),
}

// 01: an array literal has at most 32 elements.
const MOST_ELEMENTS: usize = 32;

// scalar-literal *( "," scalar-literal ) "}"
fn read_elements(q: &[u8], start: usize, first: Token) -> Result<(RightSide, Token), Fault>
    ensures { result ≡ elements 32 (scan q.now) start 0 first }
{
    let mut t = first;
    for before in 0..MOST_ELEMENTS {
        if !is_literal(t) {
            return Err(grammar_at(t.start));
        }
        let u = token_after(q, t);
        if is_kind(u, TokenKind::Symbol(Punctuation::CloseList)) {
            let list = RightSide::Elements {
                start,
                count: before + 1,
                end: u.end,
            };
            return Ok((list, token_after(q, u)));
        }
        if !is_kind(u, TokenKind::Symbol(Punctuation::Comma)) {
            return Err(grammar_at(u.start));
        }
        t = token_after(q, u);
    }
    Err(limit_at(is_literal(t), t.start))
}

#[tactic(auto, unfolding(crate::specs::Comparison::array_literal, crate::specs::Comparison::list_from))]
fn read_array(q: &[u8], t: Token) -> Result<(RightSide, Token), Fault>
    ensures { result ≡ array_literal (scan q.now) t }
{
    let u = token_after(q, t);
    if !is_kind(u, TokenKind::Symbol(Punctuation::CloseList)) {
        return read_elements(q, t.start, u);
    }
    let empty = RightSide::Elements {
        start: t.start,
        count: 0,
        end: u.end,
    };
    Ok((empty, token_after(q, u)))
}

#[tactic(auto, unfolding(crate::specs::Comparison::operand, crate::specs::Comparison::operand_of))]
fn read_operand(q: &[u8], whole: bool, o: Operator, t: Token) -> Result<(RightSide, Token), Fault>
    ensures { result ≡ operand (scan q.now) whole o t }
{
    if is_literal(t) {
        return Ok((RightSide::Literal(t), token_after(q, t)));
    }
    let list = is_kind(t, TokenKind::Symbol(Punctuation::OpenList));
    if list & (whole & is_equality(o)) {
        return read_array(q, t);
    }
    let (path, index, u) = read_reference(q, !whole, t).map_err(grammar_at)?;
    Ok((RightSide::Property(path, index), u))
}

#[tactic(auto, unfolding(crate::specs::Comparison::pattern))]
fn read_pattern(q: &[u8], t: Token) -> Result<(RightSide, Token), Fault>
    ensures { result ≡ pattern (scan q.now) t }
{
    if !is_kind(t, TokenKind::Text) {
        return Err(grammar_at(t.start));
    }
    Ok((RightSide::Pattern(t), token_after(q, t)))
}

#[tactic(auto, unfolding(crate::specs::Comparison::right_side))]
pub(crate) fn read_right(
    q: &[u8],
    v: Operation,
    whole: bool,
    t: Token,
) -> Result<(RightSide, Token), Fault>
    ensures { result ≡ right_side (scan q.now) v whole t }
{
    match v {
        Operation::Compare(o) => read_operand(q, whole, o, t),
        Operation::Like | Operation::NotLike => read_pattern(q, t),
    }
}
