// check (query, table).
ghost use Rattle.std.specs.Prelude.{◌≡◌, Ok};
ghost use Rattle.syntax.specs.Scan.{scan};
ghost use Rattle.query_text.specs.Query.{query_from, query, verdict};
ghost use Rattle.filter.specs.Check as Check;
ghost use Rattle.filter.specs.Check.{check_comparison, as_checked};
ghost use Rattle.filter.specs.Answers.{check_query};

use crate::refusal::Refusal;
use base::bytes::piece;
use judge::judge;
use query_text::join::is_last;
use query_text::query::{open_query, read_next};
use query_text::text::check_text;
use syntax::comparison::Comparison;
use table::validate::read_table;
use token::Token;

// A comparison fails in every instance, whatever is noted, or in none: any instance and any notes will do.
#[tactic(auto, using(crate::proofs::Laws::comparison_fails, crate::proofs::Laws::comparison_tells))]
fn check_comparison<'a>(
    q: &'a [u8],
    t: &'a [u8],
    i: &'a [u8],
    notes: &[usize],
    c: Comparison,
) -> Result<(), Refusal>
    ensures { result ≡ as_checked (check_comparison q.now t.now c) }
{
    judge(q, t, i, notes, c)?;
    Ok(())
}

// The comparisons from a token on, of a text that the grammar takes.
#[tactic(auto, using(crate::proofs::Laws::checked_out, crate::proofs::Laws::checked_none, crate::proofs::Laws::checked_refused, crate::proofs::Laws::checked_last, crate::proofs::Laws::checked_more, crate::proofs::Laws::taken_more))]
fn check_from<'a>(
    q: &'a [u8],
    t: &'a [u8],
    i: &'a [u8],
    notes: &[usize],
    grouped: bool,
    first: Token,
) -> Result<(), Refusal>
    requires { verdict (query_from 64 (scan q.now) grouped first) ≡ Ok tt }
    ensures { result ≡ check_query q.now t.now (query_from 64 (scan q.now) grouped first) }
{
    let mut token = first;
    for read in 0..64usize {
        let Ok((c, j, next)) = read_next(q, grouped, token) else {
            return Ok(());
        };
        check_comparison(q, t, i, notes, c)?;
        if is_last(j) {
            return Ok(());
        }
        token = next;
    }
    Ok(())
}

// Over an instance without records and one note, made once for all comparisons.
#[tactic(auto, using(crate::proofs::Laws::begins_taken, crate::proofs::Laws::begins_checked))]
fn check_comparisons<'a>(q: &'a [u8], t: &'a [u8]) -> Result<(), Refusal>
    requires { verdict (query q.now) ≡ Ok tt }
    ensures { result ≡ check_query q.now t.now (query q.now) }
{
    let start = open_query(q);
    let notes = [0usize; 1];
    check_from(q, t, piece(t, 0, 0), &notes, start.grouped, start.token)
}

// Whether the engine accepts a query for a table: the table, the query's text, its comparisons.
#[tactic(auto, using(crate::proofs::Laws::table_refused, crate::proofs::Laws::text_refused, crate::proofs::Laws::taken_query, crate::proofs::Laws::text_taken))]
pub fn check<'a>(query: &'a [u8], table: &'a [u8]) -> Result<(), Refusal>
    ensures { result ≡ Check.check query.now table.now }
{
    read_table(table)?;
    check_text(query)?;
    check_comparisons(query, table)
}
