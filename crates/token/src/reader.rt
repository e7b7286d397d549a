// The reader of 01 "Query text": a slice and an offset. Each function is one step: the work stands in
// `first`, and other crates call `token_at` and `token_after`, whose parameters are plain.
// They are functions and no methods, since the walks of proofs/Calls speak of their contracts by these names.
ghost use Rattle.std.specs.Prelude.{◌≡◌, length};
ghost use Rattle.token.specs.Token.{SpansIf};
ghost use Rattle.token.specs.Reader.{reader_at, next_token, moved_past};

use crate::Token;
use crate::first::first_token;

// The query is read up to `offset`.
#[derive(Drop)]
pub struct Reader<'a> {
    pub query: &'a [u8],
    pub offset: usize,
}

pub fn reader_at<'a>(query: &'a [u8], offset: usize) -> Reader<'a>
    ensures { result ≡ reader_at query.entry offset }
{
    Reader { query, offset }
}

pub fn next_token<'a>(reader: Reader<'a>) -> Token
    ensures { (result ≡ next_token reader.entry) × SpansIf (length reader.entry.query.now) reader.entry.offset result }
{
    first_token(reader.query, reader.offset)
}

pub fn moved_past<'a>(reader: Reader<'a>, t: Token) -> Reader<'a>
    ensures { result ≡ moved_past reader.entry t }
{
    Reader {
        query: reader.query,
        offset: t.end,
    }
}
