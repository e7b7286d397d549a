// The property that a path names.
ghost use Rattle.std.specs.Prelude.{◌≡◌};
ghost use Rattle.operand.specs.Named.{spanned, named};

use base::bytes::piece;
use syntax::path::{Path, Span};
use table::lookup::{Property, find_property, is_class};

// A span of the query.
pub fn spanned(q: &[u8], s: Span) -> &[u8]
    ensures { result.now ≡ spanned q.now s }
{
    piece(q, s.start, s.end.saturating_sub(s.start))
}

// `A`, or `Class.A` with the table's class; any other path names nothing.
#[tactic(auto, using(crate::proofs::Laws::named_alone, crate::proofs::Laws::named_classed, crate::proofs::Laws::named_not))]
pub fn find_named<'a>(q: &'a [u8], t: &'a [u8], p: Path) -> Option<Property>
    ensures { result ≡ named q.now t.now p }
{
    match p.names {
        1 => find_property(t, spanned(q, p.first)),
        2 if is_class(t, spanned(q, p.first)) => find_property(t, spanned(q, p.second)),
        _ => None,
    }
}
