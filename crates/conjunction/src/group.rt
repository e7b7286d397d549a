// The groups of a query, and its terms: a term is the groups between two ORs outside of brackets.
ghost use Rattle.std.specs.Prelude.{◌≡◌};
ghost use Rattle.terminal.specs.Terminal.{inside};
ghost use Rattle.syntax.specs.Scan.{scan};
ghost use Rattle.query_text.specs.Query.{query_start};
ghost use Rattle.conjunction.specs.Groups.{last, group_at};
ghost use Rattle.conjunction.specs.Terms.{Behind};

use query_text::query::open_query;
use syntax::path::Span;
use terminal::operator::{BoolOp, joining_of};
use token::{Punctuation, Token, TokenKind, token_after};

// Its text without its brackets, what stands behind them, and the first token of the group behind that.
#[derive(Drop)]
pub struct Group {
    pub text: Span,
    pub joining: Option<BoolOp>,
    pub next: Token,
}

fn is_inside(k: TokenKind) -> bool
    ensures { result ≡ inside k }
{
    !matches!(
        k,
        TokenKind::End | TokenKind::NoToken | TokenKind::Symbol(Punctuation::Close)
    )
}

fn last_of(q: &[u8], first: Token) -> Token
    ensures { result ≡ last q.now first }
{
    let mut token = first;
    loop {
        let next = token_after(q, token);
        if !is_inside(next.kind) {
            return token;
        }
        token = next;
    }
}

// The group that starts with a token.
pub(crate) fn group_at(q: &[u8], first: Token) -> Group
    ensures { result ≡ group_at q.now first }
{
    let last = last_of(q, first);
    let close = token_after(q, last);
    let behind = token_after(q, close);
    let open = token_after(q, behind);
    Group {
        text: Span {
            start: first.start,
            end: last.end,
        },
        joining: joining_of(behind),
        next: token_after(q, open),
    }
}

pub(crate) fn first_token(q: &[u8]) -> Token
    ensures { result ≡ (query_start (scan q.now)).token }
{
    open_query(q).token
}

// The term behind the one that starts with a token.
pub(crate) fn next_term(q: &[u8], first: Token) -> Option<Token>
    ensures { Behind q.now first result }
{
    let mut token = first;
    loop {
        let group = group_at(q, token);
        let joining = group.joining;
        let next = group.next;
        match joining {
            None => return None,
            Some(op) => match op {
                BoolOp::Or => return Some(next),
                BoolOp::And => token = next,
            },
        }
    }
}
