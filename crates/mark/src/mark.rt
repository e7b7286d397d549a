// mark (query, table, run, marks).
ghost use Rattle.std.specs.Prelude.{◌≡◌, ◌++◌, ◌≤◌, length, drop};
ghost use Rattle.filter.specs.Check.{IsAccepted};
ghost use Rattle.run.specs.Run.{instances_of};
ghost use Rattle.run.specs.Totals.{answers_of, marks_of, totals_of};
ghost use Rattle.mark.specs.Mark as Mark;

use crate::refusal::{MarkCause, MarkRefusal};
use filter::check::check;
use filter::evaluate::evaluate_accepted;
use instance::notes::NOTES;
use query_text::query::open_query;
use record::walk::records_from;
use run::fault::RunFault;
use run::reading::read_run;
use run::totals::{Totals, count_answer, mark_of};

// The instances of the run one after the other: each is evaluated, marked and counted.
fn mark_instances<'a>(query: &'a [u8], table: &'a [u8], run: &'a [u8], marks: &mut [u8]) -> Totals
    requires { IsAccepted query.now table.now × (length (instances_of run.now) ≤ length marks.old) }
    ensures { (result ≡ totals_of (answers_of query.now table.now run.now)) × (marks.new ≡ marks_of query.now table.now run.now ++ drop (length (instances_of run.now)) marks.old) × (length marks.new ≡ length marks.old) }
{
    let opened = open_query(query);
    let mut notes = [0usize; NOTES];
    let mut totals = Totals {
        included: 0,
        excluded: 0,
        failed: 0,
    };
    for (number, record) in records_from(run, 0).enumerate() {
        let Ok(record) = record else {
            return totals;
        };
        let instance = record.body_in(run);
        let answer = evaluate_accepted(query, table, instance, &mut notes, opened);
        marks[number] = mark_of(answer);
        totals = count_answer(totals, answer);
    }
    totals
}

fn refuse(fault: RunFault, place: usize) -> Result<Totals, MarkRefusal>
    ensures { result ≡ Mark.refused_run fault place }
{
    Err(MarkRefusal {
        cause: MarkCause::Run(fault),
        place,
    })
}

// Of a query that the check accepts.
fn mark_accepted<'a>(
    query: &'a [u8],
    table: &'a [u8],
    run: &'a [u8],
    marks: &mut [u8],
) -> Result<Totals, MarkRefusal>
    requires { IsAccepted query.now table.now }
    ensures { (result ≡ Mark.mark query.now table.now run.now (length marks.old)) × (marks.new ≡ Mark.marks_after query.now table.now run.now marks.old) × (length marks.new ≡ length marks.old) }
{
    let count = match read_run(run) {
        Ok(count) => count,
        Err(place) => return refuse(RunFault::Indivisible, place),
    };
    if marks.len() < count {
        return refuse(RunFault::MarksTooFew, 0);
    }
    Ok(mark_instances(query, table, run, marks))
}

// One mark for each instance of the run, and the totals; a refused call leaves the marks as they are.
#[tactic(auto, using(crate::proofs::Laws::check_accepts))]
pub fn mark<'a>(
    query: &'a [u8],
    table: &'a [u8],
    run: &'a [u8],
    marks: &mut [u8],
) -> Result<Totals, MarkRefusal>
    ensures { (result ≡ Mark.mark query.now table.now run.now (length marks.old)) × (marks.new ≡ Mark.marks_after query.now table.now run.now marks.old) × (length marks.new ≡ length marks.old) }
{
    check(query, table)?;
    mark_accepted(query, table, run, marks)
}
