// How many comparisons the conjunction of two queries has.
ghost use Rattle.std.specs.Prelude.{◌≡◌, ◌≤◌, length};
ghost use Rattle.syntax.specs.Scan.{scan};
ghost use Rattle.query_text.specs.Query.{query_from, query};
ghost use Rattle.conjunction.specs.Groups.{terms_of};
ghost use Rattle.conjunction.specs.Conjunction.{count, comparisons, comparisons_of};

use crate::group::{first_token, next_term};
use query_text::join::is_last;
use query_text::query::{open_query, read_next};
use token::Token;

fn count_terms(q: &[u8]) -> usize
    requires { length q.now ≤ 4096 }
    ensures { result ≡ count (terms_of q.now) }
{
    let mut token = first_token(q);
    let mut terms: usize = 1;
    while let Some(next) = next_term(q, token) {
        terms += 1;
        token = next;
    }
    terms
}

// The comparisons from a token on; none where the grammar or its limit refuses them.
fn count_from(q: &[u8], grouped: bool, first: Token) -> usize
    ensures { result ≡ comparisons (query_from 64 (scan q.now) grouped first) }
{
    let mut token = first;
    for read in 0..64 {
        let Ok((_, join, next)) = read_next(q, grouped, token) else {
            return 0;
        };
        if is_last(join) {
            return read + 1;
        }
        token = next;
    }
    0
}

fn count_comparisons(q: &[u8]) -> usize
    ensures { result ≡ comparisons (query q.now) }
{
    let start = open_query(q);
    count_from(q, start.grouped, start.token)
}

pub(crate) fn comparisons_of<'a>(first: &'a [u8], second: &'a [u8]) -> usize
    requires { (length first.now ≤ 4096) × (length second.now ≤ 4096) }
    ensures { result ≡ comparisons_of first.now second.now }
{
    count_terms(second) * count_comparisons(first) + count_terms(first) * count_comparisons(second)
}
