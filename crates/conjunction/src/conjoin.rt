// conjoin (first, second, table, buffer).
ghost use Rattle.std.specs.Prelude.{◌≡◌, ◌≤◌, length};
ghost use Rattle.conjunction.specs.Conjoin as Conjoin;

use crate::refusal::{ConjoinCause, ConjoinRefusal};
use crate::size::comparisons_of;
use crate::write::write_conjunction;
use base::bytes::piece;
use filter::check::check;
use filter::refusal::Refusal;
use text_writer::buffer::write_text;

fn refused(cause: ConjoinCause) -> Result<usize, ConjoinRefusal>
    ensures { result ≡ Conjoin.refused cause 0 }
{
    Err(ConjoinRefusal { cause, place: 0 })
}

// The text is made in a buffer of one byte more than a query may have, and copied once it is known to fit.
fn conjoin_accepted<'a>(
    first: &'a [u8],
    second: &'a [u8],
    buffer: &mut [u8],
) -> Result<usize, ConjoinRefusal>
    requires { (length first.now ≤ 4096) × (length second.now ≤ 4096) }
    ensures { (result ≡ Conjoin.conjoin_accepted first.now second.now (length buffer.old)) × (buffer.new ≡ Conjoin.buffer_by first.now second.now buffer.old result) }
{
    if 64 < comparisons_of(first, second) {
        return refused(ConjoinCause::Size);
    }
    let mut text = [0u8; 4097];
    let length = write_conjunction(&mut text, first, second);
    if 4096 < length {
        return refused(ConjoinCause::Size);
    }
    if buffer.len() < length {
        return refused(ConjoinCause::Buffer);
    }
    write_text(buffer, 0, piece(&text, 0, length));
    Ok(length)
}

fn of_first(r: Refusal) -> ConjoinRefusal
    ensures { result ≡ record { cause = ConjoinCause.First r.cause; place = r.place } }
{
    ConjoinRefusal {
        cause: ConjoinCause::First(r.cause),
        place: r.place,
    }
}

fn of_second(r: Refusal) -> ConjoinRefusal
    ensures { result ≡ record { cause = ConjoinCause.Second r.cause; place = r.place } }
{
    ConjoinRefusal {
        cause: ConjoinCause::Second(r.cause),
        place: r.place,
    }
}

// One text that includes exactly what both queries include, and its length; a refused call leaves the buffer as it is.
pub fn conjoin<'a>(
    first: &'a [u8],
    second: &'a [u8],
    table: &'a [u8],
    buffer: &mut [u8],
) -> Result<usize, ConjoinRefusal>
    ensures { (result ≡ Conjoin.conjoin first.now second.now table.now (length buffer.old)) × (buffer.new ≡ Conjoin.buffer_after first.now second.now table.now buffer.old) × (length buffer.new ≡ length buffer.old) }
{
    if let Err(r) = check(first, table) {
        return Err(of_first(r));
    }
    if let Err(r) = check(second, table) {
        return Err(of_second(r));
    }
    conjoin_accepted(first, second, buffer)
}
