// The elements of an array literal, token by token.
ghost use Rattle.std.specs.Prelude.{◌≡◌};
ghost use Rattle.operand.specs.Element.{next_element, first_element};

use token::{Token, token_after, token_at};

// The first element of the array literal that starts at a place.
#[tactic(auto, using(crate::proofs::Laws::element_first))]
pub fn first_element(q: &[u8], start: usize) -> Token
    ensures { result ≡ first_element q.now start }
{
    token_after(q, token_at(q, start))
}

// The element after another.
#[tactic(auto, using(crate::proofs::Laws::element_next))]
pub fn next_element(q: &[u8], t: Token) -> Token
    ensures { result ≡ next_element q.now t }
{
    token_after(q, token_after(q, t))
}
