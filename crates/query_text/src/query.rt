// A query's comparisons, one after another.
ghost use Rattle.std.specs.Prelude.{◌≡◌};
ghost use Rattle.syntax.specs.Scan.{scan};
ghost use Rattle.query_text.specs.Query.{next_comparison, query_from, query_start, query, verdict};

use crate::join::{Join, is_last, read_join};
use syntax::comparison::{Comparison, read_comparison};
use syntax::fault::{Fault, grammar_at, limit_at};
use syntax::left_side::skip_if;
use terminal::kind::is_kind;
use terminal::quantifier::is_opening;
use token::{Punctuation, Token, TokenKind, token_after};

// The first comparison's first token, and whether its fql-expr is bracketed.
#[derive(Clone, Copy)]
pub struct QueryStart {
    pub grouped: bool,
    pub token: Token,
}

#[tactic(auto, unfolding(crate::specs::Query::query_start, crate::specs::Query::start_at))]
pub fn open_query(q: &[u8]) -> QueryStart
    ensures { result ≡ query_start (scan q.now) }
{
    let before = Token {
        kind: TokenKind::End,
        start: 0,
        end: 0,
    };
    let t = token_after(q, before);
    let grouped = is_kind(t, TokenKind::Symbol(Punctuation::Open));
    let token = skip_if(q, grouped, t);
    QueryStart { grouped, token }
}

#[tactic(auto, unfolding(crate::specs::Query::next_comparison, crate::specs::Query::next_by, crate::specs::Query::next_of))]
pub fn read_next(q: &[u8], grouped: bool, t: Token) -> Result<(Comparison, Join, Token), Fault>
    ensures { result ≡ next_comparison (scan q.now) grouped t }
{
    let (comparison, u) = read_comparison(q, t)?;
    let (join, v) = read_join(q, grouped, u).map_err(grammar_at)?;
    Ok((comparison, join, v))
}

// 01: a query has at most 64 comparisons.
const MOST_COMPARISONS: usize = 64;

fn read_from(q: &[u8], grouped: bool, first: Token) -> Result<(), Fault>
    ensures { result ≡ verdict (query_from 64 (scan q.now) grouped first) }
{
    let mut t = first;
    for _before in 0..MOST_COMPARISONS {
        let (_, join, u) = read_next(q, grouped, t)?;
        if is_last(join) {
            return Ok(());
        }
        t = u;
    }
    Err(limit_at(is_opening(t), t.start))
}

#[tactic(auto, unfolding(crate::specs::Query::query))]
pub fn read_query(q: &[u8]) -> Result<(), Fault>
    ensures { result ≡ verdict (query q.now) }
{
    let start = open_query(q);
    read_from(q, start.grouped, start.token)
}
