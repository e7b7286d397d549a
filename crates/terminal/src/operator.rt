// scalar-comp-op, array-comp-op and bool-op.
ghost use Rattle.std.specs.Prelude.{◌≡◌};
ghost use Rattle.terminal.specs.Terminal.{comparing, joining, equality};

use crate::kind::is_kind;
use base::order::Operator;
use token::{Reserved, Token, TokenKind};

// bool-op
#[derive(Clone, Copy)]
pub enum BoolOp {
    And,
    Or,
}

#[tactic(auto, unfolding(crate::specs::Terminal::comparing))]
pub fn comparing_of(t: Token) -> Option<Operator>
    ensures { result ≡ comparing t }
{
    match t.kind {
        TokenKind::Compare(o) => Some(o),
        _ => None,
    }
}

pub fn is_equality(o: Operator) -> bool
    ensures { result ≡ equality o }
{
    matches!(o, Operator::Equal | Operator::Unequal)
}

#[tactic(auto, unfolding(crate::specs::Terminal::joining))]
pub fn joining_of(t: Token) -> Option<BoolOp>
    ensures { result ≡ joining t }
{
    if is_kind(t, TokenKind::Word(Reserved::And)) {
        return Some(BoolOp::And);
    }
    if is_kind(t, TokenKind::Word(Reserved::Or)) {
        return Some(BoolOp::Or);
    }
    None
}
