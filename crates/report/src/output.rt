// The whole of what the program writes.
ghost use Rattle.std.specs.Prelude.{◌≡◌, ◌≤◌, length};
ghost use Rattle.filter.specs.Check.{IsAccepted};
ghost use Rattle.run.specs.Totals.{answers_of};
ghost use Rattle.text_writer.specs.Written.{Written};
ghost use Rattle.report.specs.Line.{refused_line, run_lines};
ghost use Rattle.report.specs.Text.{terminated, text};
ghost use Rattle.report.specs.Output.{indivisible, lines_accepted, output};

use crate::line::{write_answer, write_refused, write_total};
use filter::check::check;
use filter::evaluate::evaluate_accepted;
use filter::refusal::number_of;
use instance::notes::NOTES;
use query_text::query::open_query;
use record::walk::records_from;
use run::fault::RunFault;
use run::reading::read_run;
use run::totals::{Totals, count_answer};

// No output is longer: a run within its limit has at most 16,384 records, and a line at most 51 bytes, but for the totals with 90.
pub const OUTPUT_LIMIT: usize = 16_384 * 51 + 90;

// A line for each instance of the run, numbered from 1, and the totals.
fn write_answers<'a>(out: &mut [u8], query: &'a [u8], table: &'a [u8], run: &'a [u8]) -> usize
    requires { IsAccepted query.now table.now }
    ensures { Written out.old 0 (text (run_lines (answers_of query.now table.now run.now))) result out.new }
{
    let opened = open_query(query);
    let mut notes = [0usize; NOTES];
    let mut place = 0;
    let mut count: usize = 0;
    let mut totals = Totals {
        included: 0,
        excluded: 0,
        failed: 0,
    };
    for record in records_from(run, 0) {
        let Ok(record) = record else {
            break;
        };
        let instance = record.body_in(run);
        let answer = evaluate_accepted(query, table, instance, &mut notes, opened);
        count += 1;
        place = write_answer(out, place, count, answer);
        totals = count_answer(totals, answer);
    }
    write_total(out, place, count, totals)
}

#[tactic(auto, using(crate::proofs::Writing::indivisible_written))]
fn write_indivisible(out: &mut [u8], place: usize) -> usize
    ensures { Written out.old 0 (terminated (refused_line indivisible place)) result out.new }
{
    write_refused(out, 0, run::fault::number_of(RunFault::Indivisible), place)
}

// Of a query that the check accepts; the run's length before its records.
fn write_run<'a>(out: &mut [u8], query: &'a [u8], table: &'a [u8], run: &'a [u8]) -> usize
    requires { IsAccepted query.now table.now }
    ensures { Written out.old 0 (text (lines_accepted query.now table.now run.now)) result out.new }
{
    if 65536 < run.len() {
        return write_indivisible(out, 65536);
    }
    match read_run(run) {
        Err(place) => write_indivisible(out, place),
        Ok(_) => write_answers(out, query, table, run),
    }
}

// What the program writes for these three files, and how many bytes it is.
pub fn write_output<'a>(out: &mut [u8], query: &'a [u8], table: &'a [u8], run: &'a [u8]) -> usize
    ensures written { Written out.old 0 (output query.now table.now run.now) result out.new }
    ensures fits { length (output query.now table.now run.now) ≤ OUTPUT_LIMIT }
{
    match check(query, table) {
        Err(x) => write_refused(out, 0, number_of(x.cause), x.place),
        Ok(()) => write_run(out, query, table, run),
    }
}
