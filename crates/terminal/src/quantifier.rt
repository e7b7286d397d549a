// ANY and EVERY, and what a comparison starts with.
ghost use Rattle.std.specs.Prelude.{◌≡◌};
ghost use Rattle.terminal.specs.Terminal.{quantifying, opening};

use crate::kind::is_kind;
use token::{Reserved, Token, TokenKind};

// The three forms of a comparison: ANY, EVERY, or neither, which is a form of its own and so no None.
#[derive(Clone, Copy)]
pub enum Quantifier {
    Single,
    Any,
    Every,
}

#[tactic(auto, unfolding(crate::specs::Terminal::quantifying))]
pub fn quantifier_of(t: Token) -> Quantifier
    ensures { result ≡ quantifying t }
{
    if is_kind(t, TokenKind::Word(Reserved::Any)) {
        return Quantifier::Any;
    }
    if is_kind(t, TokenKind::Word(Reserved::Every)) {
        return Quantifier::Every;
    }
    Quantifier::Single
}

// Whether a comparison can start with a token.
#[tactic(auto, unfolding(crate::specs::Terminal::opening))]
pub fn is_opening(t: Token) -> bool
    ensures { result ≡ opening t }
{
    is_kind(t, TokenKind::Name)
        | is_kind(t, TokenKind::Word(Reserved::Not))
        | is_kind(t, TokenKind::Word(Reserved::Any))
        | is_kind(t, TokenKind::Word(Reserved::Every))
}
