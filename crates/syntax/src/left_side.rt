// property / array-property "[" index "]" / array-op array-property: what a comparison is about, up to its operator.
ghost use Rattle.std.specs.Prelude.{◌≡◌};
ghost use Rattle.syntax.specs.Scan.{scan, skip};
ghost use Rattle.syntax.specs.Comparison.{single, plain, left_side};

use crate::path::{Path, read_reference};
use terminal::kind::is_kind;
use terminal::quantifier::{Quantifier, quantifier_of};
use token::{Reserved, Token, TokenKind, token_after};

// It starts where the comparison does, NOT, ANY and EVERY included.
#[derive(Clone, Copy)]
pub struct LeftSide {
    pub start: usize,
    pub negated: bool,
    pub quantifier: Quantifier,
    pub path: Path,
    pub index: Option<Token>,
}

pub fn skip_if(q: &[u8], yes: bool, t: Token) -> Token
    ensures { result ≡ skip (scan q.now) yes t }
{
    if yes { token_after(q, t) } else { t }
}

pub fn is_single(k: Quantifier) -> bool
    ensures { result ≡ single k }
{
    matches!(k, Quantifier::Single)
}

pub fn is_plain(k: Quantifier, i: Option<Token>) -> bool
    ensures { result ≡ plain k i }
{
    i.is_none() && is_single(k)
}

#[tactic(auto, unfolding(crate::specs::Comparison::left_side, crate::specs::Comparison::left_at, crate::specs::Comparison::left_by, crate::specs::Comparison::left_of))]
pub(crate) fn read_left(q: &[u8], t: Token) -> Result<(LeftSide, Token), usize>
    ensures { result ≡ left_side (scan q.now) t }
{
    let negated = is_kind(t, TokenKind::Word(Reserved::Not));
    let u = skip_if(q, negated, t);
    let quantifier = quantifier_of(u);
    let alone = is_single(quantifier);
    if negated & alone {
        return Err(u.start);
    }
    let (path, index, v) = read_reference(q, alone, skip_if(q, !alone, u))?;
    Ok((
        LeftSide {
            start: t.start,
            negated,
            quantifier,
            path,
            index,
        },
        v,
    ))
}
