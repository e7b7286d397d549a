// What follows a comparison.
ghost use Rattle.std.specs.Prelude.{◌≡◌};
ghost use Rattle.syntax.specs.Scan.{scan};
ghost use Rattle.query_text.specs.Query.{at_end, outer, join_after, last_join};

use terminal::kind::is_kind;
use terminal::operator::{BoolOp, joining_of};
use token::{Punctuation, Token, TokenKind, token_after};

// The end, bool-op inside an fql-expr, or ")" bool-op "(".
#[derive(Clone, Copy)]
pub enum Join {
    Last,
    Inner(BoolOp),
    Outer(BoolOp),
}

#[tactic(auto, unfolding(crate::specs::Query::at_end))]
fn read_end(t: Token) -> Result<(Join, Token), usize>
    ensures { result ≡ at_end t }
{
    if !is_kind(t, TokenKind::End) {
        return Err(t.start);
    }
    Ok((Join::Last, t))
}

// ")" and the end, or ")" bool-op "("
#[tactic(auto, unfolding(crate::specs::Query::outer, crate::specs::Query::after_group, crate::specs::Query::outer_by, crate::specs::Query::open_group))]
fn read_outer(q: &[u8], t: Token) -> Result<(Join, Token), usize>
    ensures { result ≡ outer (scan q.now) t }
{
    if !is_kind(t, TokenKind::Symbol(Punctuation::Close)) {
        return Err(t.start);
    }
    let u = token_after(q, t);
    let Some(o) = joining_of(u) else {
        return read_end(u);
    };
    let v = token_after(q, u);
    if !is_kind(v, TokenKind::Symbol(Punctuation::Open)) {
        return Err(v.start);
    }
    Ok((Join::Outer(o), token_after(q, v)))
}

#[tactic(auto, unfolding(crate::specs::Query::join_after, crate::specs::Query::join_by))]
pub(crate) fn read_join(q: &[u8], grouped: bool, t: Token) -> Result<(Join, Token), usize>
    ensures { result ≡ join_after (scan q.now) grouped t }
{
    match joining_of(t) {
        Some(o) => Ok((Join::Inner(o), token_after(q, t))),
        None if grouped => read_outer(q, t),
        None => read_end(t),
    }
}

pub fn is_last(j: Join) -> bool
    ensures { result ≡ last_join j }
{
    matches!(j, Join::Last)
}
