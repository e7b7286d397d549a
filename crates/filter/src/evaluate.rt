// evaluate (query, table, instance).
ghost use Rattle.std.specs.Prelude.{◌≡◌, ◌&&◌, ◌+◌, ◌≤◌, false, length, Ok};
ghost use Rattle.syntax.specs.Scan.{scan};
ghost use Rattle.query_text.specs.Query.{query_from, query_start};
ghost use Rattle.instance.specs.Noted.{notes_after};
ghost use Rattle.short_circuit.specs.Walk.{told, initial, steps_if, walk_query};
ghost use Rattle.filter.specs.Check.{IsAccepted};
ghost use Rattle.filter.specs.Evaluate as Evaluate;
ghost use Rattle.filter.specs.Noted.{evaluate_noted};
ghost use Rattle.filter.specs.Answers.{truth_noted, steps_noted};

use crate::check::check;
use crate::refusal::{Answer, Refusal};
use instance::conform::check_instance;
use instance::notes::NOTES;
use judge::judge;
use query_text::join::is_last;
use query_text::query::{QueryStart, open_query, read_next};
use short_circuit::{Told, advance, finish, is_live, start};
use syntax::comparison::Comparison;
use token::Token;

// Of a comparison that isn't judged.
fn untold() -> Told
    ensures { result ≡ told false 0 }
{
    Told {
        holds: false,
        steps: 0,
    }
}

// A comparison, if it is judged.
#[tactic(auto, using(crate::proofs::Laws::skipped, crate::proofs::Laws::judged_nothing, crate::proofs::Laws::judged_told, crate::proofs::Laws::judged_few, crate::proofs::Laws::untold_few))]
fn judge_if<'a>(
    live: bool,
    q: &'a [u8],
    t: &'a [u8],
    i: &'a [u8],
    notes: &[usize],
    c: Comparison,
) -> Told
    ensures { (result ≡ told (live && truth_noted q.now t.now i.now notes.now c) (steps_if live (steps_noted q.now t.now i.now notes.now c))) × (result.steps ≤ 1 + length i.now) }
{
    if !live {
        return untold();
    }
    match judge(q, t, i, notes, c) {
        Ok(x) => x,
        Err(_) => untold(),
    }
}

// The comparisons from a token on, judged from left to right.
#[tactic(auto, using(crate::proofs::Laws::walked_out, crate::proofs::Laws::walked_none, crate::proofs::Laws::walked_last, crate::proofs::Laws::walked_more))]
fn walk_from<'a>(
    q: &'a [u8],
    t: &'a [u8],
    i: &'a [u8],
    notes: &[usize],
    grouped: bool,
    first: Token,
) -> Told
    requires { length i.now ≤ 65535 }
    ensures { result ≡ walk_query (truth_noted q.now t.now i.now notes.now) (steps_noted q.now t.now i.now notes.now) initial 0 (query_from 64 (scan q.now) grouped first) }
{
    let mut token = first;
    let mut chains = start();
    let mut steps: usize = 0;
    for read in 0..64usize {
        let Ok((c, j, next)) = read_next(q, grouped, token) else {
            return untold();
        };
        let one = judge_if(is_live(chains), q, t, i, notes, c);
        if is_last(j) {
            return Told {
                holds: finish(chains, one.holds),
                steps: steps + one.steps,
            };
        }
        chains = advance(chains, j, one.holds);
        steps += one.steps;
        token = next;
    }
    untold()
}

fn answer_of(x: Told) -> Answer
    ensures { result ≡ Evaluate.answer x.holds x.steps }
{
    if x.holds {
        return Answer::Included(x.steps);
    }
    Answer::Excluded(x.steps)
}

// Of a query that the check accepts, opened, over an instance that is already walked: each property's record is read at the place noted for it, whatever is noted. Whoever has
// many filters walks an instance once, with `check_instance`, and evaluates each of them here. Of an instance of at most 65,535 bytes the steps can't overflow.
#[tactic(auto, using(crate::proofs::Laws::noted_answers))]
pub fn evaluate_noted<'a>(
    query: &'a [u8],
    table: &'a [u8],
    instance: &'a [u8],
    notes: &[usize],
    start: QueryStart,
) -> Answer
    requires { IsAccepted query.now table.now × (start ≡ query_start (scan query.now)) × (length instance.now ≤ 65535) }
    ensures { Ok result ≡ evaluate_noted query.now table.now instance.now notes.now }
{
    answer_of(walk_from(query, table, instance, notes, start.grouped, start.token))
}

// Of a query that the check accepts, opened: whether it includes the instance, and in how many steps. Whoever evaluates many instances checks and opens once, and lends the same
// notes for each: what they hold before doesn't matter.
pub fn evaluate_accepted<'a>(
    query: &'a [u8],
    table: &'a [u8],
    instance: &'a [u8],
    notes: &mut [usize],
    start: QueryStart,
) -> Result<Answer, Refusal>
    requires { IsAccepted query.now table.now × (start ≡ query_start (scan query.now)) × (128 ≤ length notes.old) }
    ensures { (result ≡ Evaluate.evaluate query.now table.now instance.now) × (notes.new ≡ notes_after table.now instance.now notes.old) × (length notes.new ≡ length notes.old) }
{
    check_instance(table, instance, notes)?;
    Ok(evaluate_noted(query, table, instance, notes, start))
}

// Whether the query includes the instance, and in how many steps.
#[tactic(auto, using(crate::proofs::Laws::accepts, crate::proofs::Laws::evaluate_refused))]
pub fn evaluate<'a>(query: &'a [u8], table: &'a [u8], instance: &'a [u8]) -> Result<Answer, Refusal>
    ensures { result ≡ Evaluate.evaluate query.now table.now instance.now }
{
    check(query, table)?;
    let mut notes = [0usize; NOTES];
    evaluate_accepted(query, table, instance, &mut notes, open_query(query))
}
