// C functions over the engine, for agents; include/fql.h declares them. A slice is lent as a pointer and a length.
#![tactic(auto)]

ghost use Rattle.std.specs.Prelude.{◌≡◌, length};
ghost use Rattle.filter.specs.Check as Check;
ghost use Rattle.filter.specs.Evaluate as Evaluate;
ghost use Rattle.mark.specs.Mark as Mark;
ghost use Rattle.watch.specs.Watch as Watch;
ghost use Rattle.conjunction.specs.Conjoin as Conjoin;
ghost use Rattle.fault_text.specs.FaultText.{shown_of};
ghost use Rattle.fql_export.specs.Answers.{refusal_of, answer_of, totals_of, watched_of, conjoined_of, part_of};

use conjunction::conjoin::conjoin;
use conjunction::refusal::{ConjoinRefusal, query_of};
use fault_text::{Shown, shown_of};
use filter::check::check;
use filter::evaluate::evaluate;
use filter::refusal::{Answer, Refusal, number_of};
use mark::mark::mark;
use mark::refusal::MarkRefusal;
use run::totals::Totals;
use watch::refusal::{WatchRefusal, WatchTotals};
use watch::watch::watch;

// A refusal's number and place; number 0 where there is none.
#[derive(Drop)]
#[repr(C)]
pub struct FqlRefusal {
    pub number: u64,
    pub place: u64,
}

// Where the number is 0, whether the instance is included (1 or 0) and the steps.
#[derive(Drop)]
#[repr(C)]
pub struct FqlAnswer {
    pub number: u64,
    pub place: u64,
    pub included: u64,
    pub steps: u64,
}

// Where the number is 0, how many instances of the run are included, are excluded and failed.
#[derive(Drop)]
#[repr(C)]
pub struct FqlTotals {
    pub number: u64,
    pub place: u64,
    pub included: u64,
    pub excluded: u64,
    pub failed: u64,
}

// Where the number is 0, how many instances of the run are marked 1 and 0.
#[derive(Drop)]
#[repr(C)]
pub struct FqlWatched {
    pub number: u64,
    pub place: u64,
    pub ones: u64,
    pub zeros: u64,
}

// Where the number is 0, the text's length; else which query is at fault (1 the first, 2 the second, 0 neither).
#[derive(Drop)]
#[repr(C)]
pub struct FqlConjoined {
    pub number: u64,
    pub place: u64,
    pub query: u64,
    pub length: u64,
}

// Which text (0 none, 1 the query, 2 the table), from which byte on, and how many bytes of it.
#[derive(Drop)]
#[repr(C)]
pub struct FqlPart {
    pub source: u64,
    pub start: u64,
    pub length: u64,
}

#[tactic(auto, using(crate::proofs::Laws::refusal_none, crate::proofs::Laws::refusal_some))]
fn refusal_of(c: Result<(), Refusal>) -> FqlRefusal
    ensures { result ≡ refusal_of c }
{
    match c {
        Ok(()) => FqlRefusal {
            number: 0,
            place: 0,
        },
        Err(x) => FqlRefusal {
            number: number_of(x.cause) as u64,
            place: x.place as u64,
        },
    }
}

#[tactic(auto, using(crate::proofs::Laws::answer_included, crate::proofs::Laws::answer_excluded, crate::proofs::Laws::answer_refused))]
fn answer_of(a: Result<Answer, Refusal>) -> FqlAnswer
    ensures { result ≡ answer_of a }
{
    match a {
        Ok(Answer::Included(n)) => FqlAnswer {
            number: 0,
            place: 0,
            included: 1,
            steps: n as u64,
        },
        Ok(Answer::Excluded(n)) => FqlAnswer {
            number: 0,
            place: 0,
            included: 0,
            steps: n as u64,
        },
        Err(x) => FqlAnswer {
            number: number_of(x.cause) as u64,
            place: x.place as u64,
            included: 0,
            steps: 0,
        },
    }
}

#[tactic(auto, using(crate::proofs::Laws::totals_counted, crate::proofs::Laws::totals_refused))]
fn totals_of(m: Result<Totals, MarkRefusal>) -> FqlTotals
    ensures { result ≡ totals_of m }
{
    match m {
        Ok(x) => FqlTotals {
            number: 0,
            place: 0,
            included: x.included as u64,
            excluded: x.excluded as u64,
            failed: x.failed as u64,
        },
        Err(x) => FqlTotals {
            number: mark::refusal::number_of(x.cause) as u64,
            place: x.place as u64,
            included: 0,
            excluded: 0,
            failed: 0,
        },
    }
}

#[tactic(auto, using(crate::proofs::Laws::watched_counted, crate::proofs::Laws::watched_refused))]
fn watched_of(w: Result<WatchTotals, WatchRefusal>) -> FqlWatched
    ensures { result ≡ watched_of w }
{
    match w {
        Ok(x) => FqlWatched {
            number: 0,
            place: 0,
            ones: x.ones as u64,
            zeros: x.zeros as u64,
        },
        Err(x) => FqlWatched {
            number: watch::refusal::number_of(x.cause) as u64,
            place: x.place as u64,
            ones: 0,
            zeros: 0,
        },
    }
}

#[tactic(auto, using(crate::proofs::Laws::conjoined_length, crate::proofs::Laws::conjoined_refused))]
fn conjoined_of(c: Result<usize, ConjoinRefusal>) -> FqlConjoined
    ensures { result ≡ conjoined_of c }
{
    match c {
        Ok(n) => FqlConjoined {
            number: 0,
            place: 0,
            query: 0,
            length: n as u64,
        },
        Err(x) => FqlConjoined {
            number: conjunction::refusal::number_of(x.cause) as u64,
            place: x.place as u64,
            query: query_of(x.cause) as u64,
            length: 0,
        },
    }
}

#[unsafe(no_mangle)]
pub extern "C" fn fql_check<'a>(query: &'a [u8], table: &'a [u8]) -> FqlRefusal
    ensures { result ≡ refusal_of (Check.check query.now table.now) }
{
    refusal_of(check(query, table))
}

#[unsafe(no_mangle)]
pub extern "C" fn fql_evaluate<'a>(
    query: &'a [u8],
    table: &'a [u8],
    instance: &'a [u8],
) -> FqlAnswer
    ensures { result ≡ answer_of (Evaluate.evaluate query.now table.now instance.now) }
{
    answer_of(evaluate(query, table, instance))
}

#[unsafe(no_mangle)]
pub extern "C" fn fql_mark<'a>(
    query: &'a [u8],
    table: &'a [u8],
    run: &'a [u8],
    marks: &mut [u8],
) -> FqlTotals
    ensures { (result ≡ totals_of (Mark.mark query.now table.now run.now (length marks.old))) × (marks.new ≡ Mark.marks_after query.now table.now run.now marks.old) × (length marks.new ≡ length marks.old) }
{
    totals_of(mark(query, table, run, marks))
}

#[unsafe(no_mangle)]
pub extern "C" fn fql_watch<'a>(
    query: &'a [u8],
    table: &'a [u8],
    run: &'a [u8],
    window: u64,
    need: u64,
    marks: &mut [u8],
) -> FqlWatched
    ensures { (result ≡ watched_of (Watch.watch query.now table.now run.now window need (length marks.old))) × (marks.new ≡ Watch.marks_after query.now table.now run.now window need marks.old) × (length marks.new ≡ length marks.old) }
{
    watched_of(watch(query, table, run, window as usize, need as usize, marks))
}

#[unsafe(no_mangle)]
pub extern "C" fn fql_conjoin<'a>(
    first: &'a [u8],
    second: &'a [u8],
    table: &'a [u8],
    buffer: &mut [u8],
) -> FqlConjoined
    ensures { (result ≡ conjoined_of (Conjoin.conjoin first.now second.now table.now (length buffer.old))) × (buffer.new ≡ Conjoin.buffer_after first.now second.now table.now buffer.old) × (length buffer.new ≡ length buffer.old) }
{
    conjoined_of(conjoin(first, second, table, buffer))
}

// The part is named and not lent: the caller holds both texts.
#[tactic(auto, using(crate::proofs::Laws::part_none, crate::proofs::Laws::part_query, crate::proofs::Laws::part_table, fault_text::proofs::Laws::query_inside, fault_text::proofs::Laws::table_inside))]
#[unsafe(no_mangle)]
pub extern "C" fn fql_fault_text<'a>(
    query: &'a [u8],
    table: &'a [u8],
    number: u64,
    place: u64,
) -> FqlPart
    ensures { result ≡ part_of (shown_of (length query.now) (length table.now) number place) (length query.now) (length table.now) place }
{
    match shown_of(query.len(), table.len(), number as usize, place as usize) {
        None => FqlPart {
            source: 0,
            start: 0,
            length: 0,
        },
        Some(Shown::Query) => FqlPart {
            source: 1,
            start: place,
            length: query.len() as u64 - place,
        },
        Some(Shown::Table) => FqlPart {
            source: 2,
            start: place,
            length: table.len() as u64 - place,
        },
    }
}
