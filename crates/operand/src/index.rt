// The index of a property.
ghost use Rattle.std.specs.Prelude.{◌≡◌};
ghost use Rattle.operand.specs.Index.{index_of};

use literal::Literal;
use literal::integer::integer_of;
use token::{Form, Token};

// The index that a token writes, up to 65,535: a u16.
#[tactic(auto, using(crate::proofs::Laws::index_outside, crate::proofs::Laws::index_fault, crate::proofs::Laws::index_other, crate::proofs::Laws::index_fits, crate::proofs::Laws::index_large))]
pub fn read_index(q: &[u8], t: Token) -> Option<usize>
    ensures { result ≡ index_of q.now t }
{
    if q.len() < t.start {
        return None;
    }
    let Ok(literal) = integer_of(q, Form::Decimal, t.start) else {
        return None;
    };
    let Literal::Integer(n) = literal else {
        return None;
    };
    match u16::try_from(n) {
        Ok(index) => Some(usize::from(index)),
        Err(_) => None,
    }
}
