// property-comp
ghost use Rattle.std.specs.Prelude.{◌≡◌};
ghost use Rattle.syntax.specs.Scan.{scan};
ghost use Rattle.syntax.specs.Comparison.{property_comp};

use crate::fault::{Fault, grammar_at};
use crate::left_side::{LeftSide, is_plain, is_single, read_left};
use crate::operation::{Operation, read_operation};
use crate::right_side::{RightSide, read_right};
use token::Token;

#[derive(Drop)]
pub struct Comparison {
    pub left: LeftSide,
    pub operation: Operation,
    pub right: RightSide,
}

#[tactic(auto, unfolding(crate::specs::Comparison::property_comp, crate::specs::Comparison::comp_left, crate::specs::Comparison::comp_operation, crate::specs::Comparison::comp_of))]
pub fn read_comparison(q: &[u8], t: Token) -> Result<(Comparison, Token), Fault>
    ensures { result ≡ property_comp (scan q.now) t }
{
    let (left, u) = read_left(q, t).map_err(grammar_at)?;
    let (operation, v) = read_operation(q, is_single(left.quantifier), u).map_err(grammar_at)?;
    let (right, w) = read_right(q, operation, is_plain(left.quantifier, left.index), v)?;
    Ok((
        Comparison {
            left,
            operation,
            right,
        },
        w,
    ))
}
