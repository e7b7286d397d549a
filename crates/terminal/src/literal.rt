// Literals: scalar-literal, and index = unsigned-integer.
ghost use Rattle.std.specs.Prelude.{◌≡◌};
ghost use Rattle.terminal.specs.Terminal.{literal_word, literal, unsigned};

use crate::kind::is_kind;
use base::bytes::byte_at;
use scan::{Class, in_class};
use token::{Form, Reserved, Token, TokenKind};

fn is_value(w: Reserved) -> bool
    ensures { result ≡ literal_word w }
{
    matches!(w, Reserved::False | Reserved::Null | Reserved::True)
}

#[tactic(auto, unfolding(crate::specs::Terminal::literal))]
pub fn is_literal(t: Token) -> bool
    ensures { result ≡ literal t }
{
    match t.kind {
        TokenKind::Word(w) => is_value(w),
        TokenKind::Number(_) | TokenKind::Text => true,
        _ => false,
    }
}

#[tactic(auto, unfolding(crate::specs::Terminal::unsigned))]
pub fn is_unsigned(q: &[u8], t: Token) -> bool
    ensures { result ≡ unsigned q.now t }
{
    is_kind(t, TokenKind::Number(Form::Decimal)) & in_class(Class::Digit(10), byte_at(q, t.start))
}
