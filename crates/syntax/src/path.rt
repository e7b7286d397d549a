// property, and property "[" index "]".
ghost use Rattle.std.specs.Prelude.{◌≡◌, ◌+◌, ◌<◌, length};
ghost use Rattle.syntax.specs.Scan.{scan};
ghost use Rattle.syntax.specs.Property.{span_of, first_name, one_more, dotted, property, indexed, reference};

use terminal::kind::{is_kind, is_word};
use terminal::literal::is_unsigned;
use token::{Punctuation, Token, TokenKind, token_after};

// A name's place in the text.
#[derive(Clone, Copy)]
pub struct Span {
    pub start: usize,
    pub end: usize,
}

// Of a path's names the first two can mean something: the property, or the class and the property.
// The second is empty where there is one name only.
#[derive(Clone, Copy)]
pub struct Path {
    pub first: Span,
    pub second: Span,
    pub names: usize,
}

fn span_of(t: Token) -> Span
    ensures { result ≡ span_of t }
{
    Span {
        start: t.start,
        end: t.end,
    }
}

#[tactic(auto, unfolding(crate::specs::Property::one_more))]
fn add_name(p: Path, t: Token) -> Path
    requires { p.names < 0xffffffffffffffff }
    ensures { result ≡ one_more p t }
{
    Path {
        first: p.first,
        second: if p.names == 1 { span_of(t) } else { p.second },
        names: p.names + 1,
    }
}

// *( "." property-name )
fn read_names(q: &[u8], first: Token, second: Token) -> Result<(Path, Token), usize>
    ensures { result ≡ dotted (length q.now + 1) (scan q.now) (first_name first) second }
{
    let end = first.end;
    let mut path = Path {
        first: span_of(first),
        second: Span { start: end, end },
        names: 1,
    };
    let mut t = second;
    // Each name is a byte or more, so a text ends before its names come to as many as this.
    for _step in 0..q.len() + 1 {
        if !is_kind(t, TokenKind::Symbol(Punctuation::Dot)) {
            return Ok((path, t));
        }
        let name = token_after(q, t);
        if !is_word(name) {
            return Err(name.start);
        }
        path = add_name(path, name);
        t = token_after(q, name);
    }
    Ok((path, t))
}

#[tactic(auto, unfolding(crate::specs::Property::property))]
pub fn read_path(q: &[u8], t: Token) -> Result<(Path, Token), usize>
    ensures { result ≡ property (scan q.now) t }
{
    if !is_kind(t, TokenKind::Name) {
        return Err(t.start);
    }
    read_names(q, t, token_after(q, t))
}

#[tactic(auto, unfolding(crate::specs::Property::indexed, crate::specs::Property::index_number, crate::specs::Property::close_index))]
fn read_index(q: &[u8], allowed: bool, t: Token) -> Result<(Option<Token>, Token), usize>
    ensures { result ≡ indexed (scan q.now) allowed t }
{
    if !(allowed & is_kind(t, TokenKind::Symbol(Punctuation::OpenIndex))) {
        return Ok((None, t));
    }
    let number = token_after(q, t);
    if !is_unsigned(q, number) {
        return Err(number.start);
    }
    let close = token_after(q, number);
    if !is_kind(close, TokenKind::Symbol(Punctuation::CloseIndex)) {
        return Err(close.start);
    }
    Ok((Some(number), token_after(q, close)))
}

#[tactic(auto, unfolding(crate::specs::Property::reference, crate::specs::Property::with_path, crate::specs::Property::with_index))]
pub fn read_reference(
    q: &[u8],
    allowed: bool,
    t: Token,
) -> Result<(Path, Option<Token>, Token), usize>
    ensures { result ≡ reference (scan q.now) allowed t }
{
    let (path, u) = read_path(q, t)?;
    let (index, v) = read_index(q, allowed, u)?;
    Ok((path, index, v))
}
