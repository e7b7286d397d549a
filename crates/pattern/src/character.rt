// The characters that a pattern gives a meaning of their own.
ghost use Rattle.std.specs.Prelude.{◌≡◌, true, ◌<◌, length, drop};
ghost use Rattle.pattern.specs.Character.{special, starts_with};
ghost use Rattle.pattern.specs.Hits.{between};

pub(crate) const DOT: u32 = 0x2e; // .

pub(crate) const BACKSLASH: u32 = 0x5c; // \

pub(crate) const OPEN_GROUP: u32 = 0x28; // (

pub(crate) const CLOSE_GROUP: u32 = 0x29; // )

pub(crate) const OPEN_SET: u32 = 0x5b; // [

pub(crate) const CLOSE_SET: u32 = 0x5d; // ]

pub(crate) const BAR: u32 = 0x7c; // |

pub(crate) const ASTERISK: u32 = 0x2a; // *

pub(crate) const PLUS_SIGN: u32 = 0x2b; // +

pub(crate) const QUESTION_MARK: u32 = 0x3f; // ?

pub(crate) const CIRCUMFLEX: u32 = 0x5e; // ^

pub(crate) const HYPHEN: u32 = 0x2d; // -

// Joined by `|`, here and in `is_between`: of `matches!` the compiler makes more tests here, and there asks for brackets last; 120 groups over a long text took 1.6 times as long.
#[tactic(auto, unfolding(crate::specs::Character::special))]
pub(crate) fn is_special(x: u32) -> bool
    ensures { result ≡ special x }
{
    (x == DOT)
        | (x == BACKSLASH)
        | (x == OPEN_GROUP)
        | (x == CLOSE_GROUP)
        | (x == OPEN_SET)
        | (x == CLOSE_SET)
        | (x == BAR)
        | (x == ASTERISK)
        | (x == PLUS_SIGN)
        | (x == QUESTION_MARK)
}

// Whether the character stands between symbols.
#[tactic(auto, unfolding(crate::specs::Hits::between))]
pub(crate) fn is_between(x: u32) -> bool
    ensures { result ≡ between x }
{
    (x == OPEN_GROUP)
        | (x == CLOSE_GROUP)
        | (x == BAR)
        | (x == ASTERISK)
        | (x == PLUS_SIGN)
        | (x == QUESTION_MARK)
}

// Whether the character x stands at an offset.
#[tactic(auto, using(crate::proofs::Offsets::starts_past, crate::proofs::Offsets::starts_here))]
pub(crate) fn is_at(s: &[u32], at: usize, x: u32) -> bool
    ensures means { result ≡ starts_with x (drop at s.now) }
    ensures within { result ≡ true → at < length s.now }
{
    at < s.len() && s[at] == x
}
