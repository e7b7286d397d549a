// The text of two queries' conjunction, written from their tokens.
ghost use Rattle.text_writer.specs.Written.{Written};
ghost use Rattle.conjunction.specs.Groups.{text_of, terms_of};
ghost use Rattle.conjunction.specs.Terms.{term_at};
ghost use Rattle.conjunction.specs.Conjunction.{chained, each, bracketed, term_text, text, conjunction};

use crate::group::{Group, first_token, group_at, next_term};
use operand::name::spanned;
use terminal::operator::BoolOp;
use text_writer::buffer::{write_byte, write_text};
use token::Token;

fn write_group(out: &mut [u8], at: usize, q: &[u8], group: Group) -> usize
    ensures { Written out.old at (bracketed (text_of q.now group)) result out.new }
{
    let span = group.text;
    let first = write_byte(out, at, b'(');
    let close = write_text(out, first, spanned(q, span));
    write_byte(out, close, b')')
}

// The groups of the term that starts with a token.
fn write_term(out: &mut [u8], at: usize, q: &[u8], first: Token) -> usize
    ensures { Written out.old at (term_text (term_at q.now first)) result out.new }
{
    let mut token = first;
    let mut place = at;
    loop {
        let group = group_at(q, token);
        let joining = group.joining;
        let next = group.next;
        let behind = write_group(out, place, q, group);
        match joining {
            None => return behind,
            Some(op) => match op {
                BoolOp::Or => return behind,
                BoolOp::And => {
                    place = write_text(out, behind, b" AND ");
                    token = next;
                }
            },
        }
    }
}

// A term of the first query, then one of the second.
fn write_both<'a>(out: &mut [u8], at: usize, q: &'a [u8], a: Token, p: &'a [u8], b: Token) -> usize
    ensures { Written out.old at (term_text (chained (term_at q.now a) (term_at p.now b))) result out.new }
{
    let behind = write_term(out, at, q, a);
    let second = write_text(out, behind, b" AND ");
    write_term(out, second, p, b)
}

// A term of the first query beside each of the second's.
fn write_beside<'a>(out: &mut [u8], at: usize, q: &'a [u8], a: Token, p: &'a [u8]) -> usize
    ensures { Written out.old at (text (each (chained (term_at q.now a)) (terms_of p.now))) result out.new }
{
    let mut b = first_token(p);
    let mut place = at;
    loop {
        let behind = write_both(out, place, q, a, p, b);
        let Some(next) = next_term(p, b) else {
            return behind;
        };
        place = write_text(out, behind, b" OR ");
        b = next;
    }
}

// Each term of the first query beside each of the second's, in order.
pub(crate) fn write_conjunction<'a>(out: &mut [u8], q: &'a [u8], p: &'a [u8]) -> usize
    ensures { Written out.old 0 (conjunction q.now p.now) result out.new }
{
    let mut a = first_token(q);
    let mut place = 0;
    loop {
        let behind = write_beside(out, place, q, a, p);
        let Some(next) = next_term(q, a) else {
            return behind;
        };
        place = write_text(out, behind, b" OR ");
        a = next;
    }
}
