// The first token from a place on.
ghost use Rattle.std.specs.Prelude.{◌≡◌, length};
ghost use Rattle.token.specs.Token.{token_at, SpansIf};

use crate::longest::longest_at;
use crate::{Token, TokenKind};
use scan::{Class, run_end};

pub(crate) fn first_token(q: &[u8], at: usize) -> Token
    ensures { (result ≡ token_at q.now at) × SpansIf (length q.now) at result }
{
    let s = run_end(Class::White, q, at);
    if q.len() <= s {
        return Token {
            kind: TokenKind::End,
            start: s,
            end: s,
        };
    }
    longest_at(q, s)
}
