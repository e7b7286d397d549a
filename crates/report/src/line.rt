// The program's lines, each with its line feed.
ghost use Rattle.text_writer.specs.Written.{Written};
ghost use Rattle.report.specs.Line.{spaced, line, answer_line, refused_line, spaced_totals, total_line};
ghost use Rattle.report.specs.Text.{terminated};

use filter::refusal::{Answer, Refusal, number_of};
use run::totals::Totals;
use text_writer::buffer::{write_byte, write_text};
use text_writer::decimal::write_decimal;

fn write_spaced(out: &mut [u8], at: usize, n: usize) -> usize
    ensures { Written out.old at (spaced n) result out.new }
{
    let number = write_byte(out, at, b' ');
    write_decimal(out, number, n)
}

// The last number of a line, and the line feed.
fn write_last(out: &mut [u8], at: usize, n: usize) -> usize
    ensures { Written out.old at (terminated (spaced n)) result out.new }
{
    let feed = write_spaced(out, at, n);
    write_byte(out, feed, b'\n')
}

fn write_line(out: &mut [u8], at: usize, number: usize, word: &[u8], n: usize) -> usize
    ensures { Written out.old at (terminated (line number word.now n)) result out.new }
{
    let blank = write_decimal(out, at, number);
    let name = write_byte(out, blank, b' ');
    let value = write_text(out, name, word);
    write_last(out, value, n)
}

// The line of the instance with this number in its run.
#[tactic(auto, using(crate::proofs::Laws::included_written, crate::proofs::Laws::excluded_written, crate::proofs::Laws::failed_written))]
pub fn write_answer(
    out: &mut [u8],
    at: usize,
    number: usize,
    answer: Result<Answer, Refusal>,
) -> usize
    ensures { Written out.old at (terminated (answer_line number answer)) result out.new }
{
    match answer {
        Ok(Answer::Included(n)) => write_line(out, at, number, b"included", n),
        Ok(Answer::Excluded(n)) => write_line(out, at, number, b"excluded", n),
        Err(x) => write_line(out, at, number, b"failed", number_of(x.cause)),
    }
}

// The one line of a refused call.
pub fn write_refused(out: &mut [u8], at: usize, number: usize, place: usize) -> usize
    ensures { Written out.old at (terminated (refused_line number place)) result out.new }
{
    let first = write_text(out, at, b"refused");
    let second = write_spaced(out, first, number);
    write_last(out, second, place)
}

fn write_totals(out: &mut [u8], at: usize, totals: Totals) -> usize
    ensures { Written out.old at (terminated (spaced_totals totals)) result out.new }
{
    let second = write_spaced(out, at, totals.included);
    let third = write_spaced(out, second, totals.excluded);
    write_last(out, third, totals.failed)
}

// The last line of a run.
pub fn write_total(out: &mut [u8], at: usize, instances: usize, totals: Totals) -> usize
    ensures { Written out.old at (terminated (total_line instances totals)) result out.new }
{
    let first = write_text(out, at, b"total");
    let second = write_spaced(out, first, instances);
    write_totals(out, second, totals)
}
