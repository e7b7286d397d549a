// Plain bytes: ASCII without control characters, quote and backslash. Each is a unit of its own in most forms, so that texts in these are compared without decoding, 16 bytes at once.
ghost use Rattle.std.specs.Prelude.{◌≡◌};
ghost use Rattle.base.specs.Part.{byte_at};
ghost use Rattle.value.specs.Unit.{units};
ghost use Rattle.value.specs.Plain.{is_bytewise, other_plain, Skips, BothStay};

use crate::class::{LAST, Plain, common_run};
pub use crate::class::{both_left, is_plain};
use crate::unit::{Form, Units};
use base::bytes::byte_at;

fn is_bytewise(form: Form) -> bool
    ensures { result ≡ is_bytewise form }
{
    matches!(
        form,
        Form::Bytes | Form::Utf8 | Form::Quoted | Form::Encoded(0)
    )
}

// Whether the bytes at two places are plain and differ; where there is none, 0 is read, which isn't plain.
fn other_plain<'a>(a: &'a [u8], at: usize, b: &'a [u8], beside: usize) -> bool
    ensures { result ≡ other_plain (byte_at a.now at) (byte_at b.now beside) }
{
    let x = byte_at(a, at);
    let y = byte_at(b, beside);
    is_plain(LAST, x) & is_plain(LAST, y) & (x != y)
}

// What is left of two sequences after the plain bytes that both have in common; none where their units differ there.
#[inline(always)]
pub fn skip_plain<'a>(x: Units<'a>, y: Units<'a>) -> Option<(Units<'a>, Units<'a>)>
    ensures skips { Skips (units x.entry) (units y.entry) result }
    ensures stays { BothStay x.entry y.entry result }
{
    if !(is_bytewise(x.form) & is_bytewise(y.form)) {
        return Some((x, y));
    }
    if !is_plain(LAST, byte_at(x.bytes, x.at)) {
        return Some((x, y));
    }
    let n = common_run(Plain, x.bytes, x.at, y.bytes, y.at);
    if other_plain(x.bytes, x.at + n, y.bytes, y.at + n) {
        return None;
    }
    Some((x.after(n), y.after(n)))
}
