// scalar-comp-op, array-comp-op / like-op
ghost use Rattle.std.specs.Prelude.{◌≡◌};
ghost use Rattle.syntax.specs.Scan.{scan};
ghost use Rattle.syntax.specs.Comparison.{like, operation};

use base::order::Operator;
use terminal::kind::is_kind;
use terminal::operator::comparing_of;
use token::{Reserved, Token, TokenKind, token_after};

#[derive(Clone, Copy)]
pub enum Operation {
    Compare(Operator),
    Like,
    NotLike,
}

#[tactic(auto, unfolding(crate::specs::Comparison::like, crate::specs::Comparison::not_like))]
fn read_like(q: &[u8], allowed: bool, t: Token) -> Result<(Operation, Token), usize>
    ensures { result ≡ like (scan q.now) allowed t }
{
    if allowed & is_kind(t, TokenKind::Word(Reserved::Like)) {
        return Ok((Operation::Like, token_after(q, t)));
    }
    if !(allowed & is_kind(t, TokenKind::Word(Reserved::Not))) {
        return Err(t.start);
    }
    let u = token_after(q, t);
    if !is_kind(u, TokenKind::Word(Reserved::Like)) {
        return Err(u.start);
    }
    Ok((Operation::NotLike, token_after(q, u)))
}

#[tactic(auto, unfolding(crate::specs::Comparison::operation, crate::specs::Comparison::operation_by))]
pub(crate) fn read_operation(q: &[u8], alone: bool, t: Token) -> Result<(Operation, Token), usize>
    ensures { result ≡ operation (scan q.now) alone t }
{
    match comparing_of(t) {
        Some(o) => Ok((Operation::Compare(o), token_after(q, t))),
        None => read_like(q, alone, t),
    }
}
