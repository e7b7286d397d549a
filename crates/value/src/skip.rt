// What two sequences have in common is skipped: plain bytes, and whole characters beyond ASCII.
ghost use Rattle.std.specs.Prelude.{◌≡◌};
ghost use Rattle.value.specs.Unit.{units};
ghost use Rattle.value.specs.Plain.{is_bytes, is_utf8, is_characters, Along, Skips, BothStay};

use crate::class::{Class, common_run, same_in};
use crate::plain::skip_plain;
use crate::unit::{Form, Units};
use base::bytes::byte_at;
use encoding::text::pass_text;

// The last byte that a character beside a string literal may start with and be skipped: EF is first in U+FFFE and U+FFFF, which it can't hold.
const HIGH: u8 = 0xee;

fn is_bytes(form: Form) -> bool
    ensures { result ≡ is_bytes form }
{
    matches!(form, Form::Bytes)
}

fn is_utf8(form: Form) -> bool
    ensures { result ≡ is_utf8 form }
{
    matches!(form, Form::Utf8)
}

fn is_characters(form: Form) -> bool
    ensures { result ≡ is_characters form }
{
    matches!(form, Form::Utf8 | Form::Quoted)
}

// How many bytes of whole characters both have at whose places a character beyond ASCII stands: of their common bytes those that the walk over the first text's sequences passes.
#[tactic(auto, using(crate::proofs::CharacterUnits::no_characters, crate::proofs::CharacterUnits::characters_skipped))]
fn skip_characters<'a>(x: Units<'a>, y: Units<'a>) -> usize
    ensures { Along x.entry y.entry result }
{
    let first = byte_at(x.bytes, x.at);
    if first < 0x80 {
        return 0;
    }
    if !(is_characters(x.form) & is_characters(y.form)) {
        return 0;
    }
    let class = Class {
        any: is_utf8(x.form) & is_utf8(y.form),
        high: HIGH,
    };
    if !same_in(class, first, byte_at(y.bytes, y.at)) {
        return 0;
    }
    let n = common_run(class, x.bytes, x.at, y.bytes, y.at);
    pass_text(x.bytes, x.at, x.at + n) - x.at
}

// How many bytes may be skipped of both: any that both have where both are bytes.
#[inline(always)]
fn skip_alike<'a>(x: Units<'a>, y: Units<'a>) -> usize
    ensures { Along x.entry y.entry result }
{
    if is_bytes(x.form) & is_bytes(y.form) {
        let class = Class {
            any: true,
            high: HIGH,
        };
        return common_run(class, x.bytes, x.at, y.bytes, y.at);
    }
    skip_characters(x, y)
}

#[inline(always)]
pub fn skip_common<'a>(x: Units<'a>, y: Units<'a>) -> Option<(Units<'a>, Units<'a>)>
    ensures skips { Skips (units x.entry) (units y.entry) result }
    ensures stays { BothStay x.entry y.entry result }
{
    let (left, right) = skip_plain(x, y)?;
    let n = skip_alike(left, right);
    Some((left.after(n), right.after(n)))
}
